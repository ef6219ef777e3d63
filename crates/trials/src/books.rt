//! Trials of the book: a second calculation, written another way from the same rules, and calls made by hand and by chance
//! that both have to answer alike.
mod call;
mod calling;
mod chance;
mod either_shelf;
mod hourly;
mod limits;
mod order;
mod pair;
mod plain;
mod pledges;
mod run;
mod second;
mod shelf_order;
mod shelves;
mod slips;
mod some;
mod tally;
mod tried;
mod worked;
