// What the lines of a case set up for its steps.
use crate::lent::{Held, Lent, RIGHT};
use case_forms::lines::SetPlace;
use case_forms::records::write_changes;
use record::Record;
use std::alloc::{AllocError, Global};
use table::free_table;

#[derive(Drop)]
pub struct Setting {
    pub alloc: Global,
    pub table: [Record; 8],
    pub held: Held,
    // Our CID.
    pub ours: Vec<u8>,
    pub lent: Lent,
}

impl Setting {
    // What a case starts with.
    pub fn new(alloc: Global) -> Result<Setting, AllocError> {
        Ok(Setting {
            alloc,
            table: free_table(),
            held: Held::new(alloc)?,
            ours: vec![in alloc; 0; 16]?,
            lent: RIGHT,
        })
    }

    // Sets a record and marks it used. Its places stay.
    pub fn set_record(&mut self, i: usize, to: Record) {
        if let Some(record) = self.table.get_mut(i) {
            *record = Record {
                places: record.places,
                ..to
            };
        }
    }

    // Marks a record free, all else as it was.
    pub fn free(&mut self, i: usize) {
        if let Some(record) = self.table.get_mut(i) {
            record.used = false;
        }
    }

    pub fn set_place(&mut self, to: &SetPlace) {
        let Some(record) = self.table.get_mut(to.record) else {
            return;
        };
        if let Some(place) = record.places.get_mut(to.place) {
            *place = to.numbers;
        }
        self.held.store(to.record, to.place, to.contents.as_slice());
    }

    // Says each record that a call changed. Then its answer is the table.
    pub fn accept(&mut self, said: &mut String, answer: [Record; 8]) -> Result<(), AllocError> {
        write_changes(said, &self.table, &answer)?;
        self.table = answer;
        Ok(())
    }
}
