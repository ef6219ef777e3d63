//! Worked figures: small cases, asked of the code and shown of its definitions.
#![tactic(auto)]

mod books;
mod lendings;
mod margin_calls;
mod pledges;

pub use books::{BookFigures, book_figures};
pub use lendings::lending_figures;
pub use margin_calls::{NoticeFigures, notice_figures};
pub use pledges::{PledgeFigures, pledge_figures};
