// The words that run one node, over wires in memory.
mod asking;
mod controlling;
mod failing;
mod serving;
