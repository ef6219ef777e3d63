//! Trials of the day-file reader: a second reader, written another way from the same rules, and files made by hand and by
//! chance that both have to read alike.
mod agree;
mod chance;
mod edges;
mod exact;
mod faults;
mod made;
mod outline;
mod second;
mod sizes;
mod stays;
mod tried;
