//! Lines of a run, its operations and their orders, printed onto a page.
#![tactic(auto)]

ghost use Rattle.std.specs.Prelude.{◌≡◌, List, map};
ghost use Rattle.peg_model.specs.World.{World, history};
ghost use Rattle.peg_model.specs.Order as order;
ghost use Rattle.peg_history.specs.declared.KeyOrder.{KeyOrder};
ghost use Rattle.peg_history.specs.Groups.{key_orders};
ghost use Rattle.peg_print.specs.Tail.{key_order};

mod lines;
mod tail;

pub use lines::{push_end, push_line};
pub use tail::push_tail;

/// For those who print the orders of a world: they are those of the book.
pub fn prints_orders_of_the_book()
    ensures { (w : World) (orders : List KeyOrder)
        → orders ≡ key_orders (history w) (map (λ o. o.tag) w.operations)
        → map key_order orders ≡ order.orders w }
{}
