/// The words that the program takes, for a person who typed others.
pub(crate) const WORDS: &str = "
replay                                     play a schedule, and write its trace, history and orders
check                                      judge a history with its orders
soak N START                               make a workload of N events, play it and judge it
racks                                      play a schedule on several racks
rack BASE                                  run a whole rack in one process, over UDP
switch BASE RACK W TURNS                   run one node of a rack, over UDP
balanced BASE RACK W TURNS WEIGHTS
server BASE RACK S TURNS
control BASE RACK TRIES WAITS
ask BASE RACK C FIRST TRIES WAITS

BASE is the least port, and RACK is servers:clients:switches:listed:hot:first, with :2 behind it for
format 2. WEIGHTS are one number for each server, with colons between.";
