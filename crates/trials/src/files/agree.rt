// Both readers are held to each other, and to what a test expects of them.
use super::outline::Found;
use super::second::second_reading;
use super::tried::{handed_over, one_by_one};
use dayfile::Told;
use std::alloc::Global;
use std::fmt::Display;
use std::process::Abort;
use std::test::Fail;

/// Both readers, and the handle that stops a test where they differ.
#[derive(Drop)]
pub struct Readers<'a, R> {
    pub rt: &'a R,
    pub heap: Global,
}

impl<'a, R: Abort> Readers<'a, R> {
    /// The reader finds what is expected, both record by record and through a sink.
    pub(crate) fn reader_finds(
        &self,
        what: &impl Display,
        expected: &Found,
        file: &[u8],
    ) -> Result<(), Fail> {
        let found = one_by_one(file, self.heap)?;
        self.same(&format_args!("{what}, one by one"), &found, expected);
        let found = handed_over(file, self.heap)?;
        self.same(&format_args!("{what}, handed over"), &found, expected);
        Ok(())
    }

    /// Both readers find the same records, which are so many, and then the fault, or none.
    pub(crate) fn both_find(
        &self,
        what: &impl Display,
        file: &[u8],
        records: usize,
        fault: Option<Told>,
    ) -> Result<(), Fail> {
        let rt = self.rt;
        let found = second_reading(file, self.heap)?;
        assert_eq!(rt; found.fault, fault, "{what}, second reader");
        assert_eq!(rt; found.records.len(), records, "{what}, second reader");
        self.reader_finds(what, &found, file)
    }

    /// The fault and the number of records come first: a failure that names them says more than a long record.
    pub(crate) fn same(&self, what: &impl Display, found: &Found, expected: &Found) {
        let rt = self.rt;
        assert_eq!(rt; found.fault, expected.fault, "{what}");
        assert_eq!(rt; found.records.len(), expected.records.len(), "{what}");
        let pairs = found.records.iter().zip(&expected.records);
        for (i, (got, wanted)) in pairs.enumerate() {
            assert_eq!(rt; got, wanted, "{what}, record {i}");
        }
    }
}
