//! The rows of a cluster, opened over its parts.
use crate::parts::{calls_at, parts_of};
use crate::place::{KEY, MEMBERS, Place};
use crate::setup::Setup;
use std::alloc::Global;
use zot_cases::Answer;
use zot_noting::NotingStore;
use zot_outside::Parts;
use zot_repo::RowConfig;
use zot_rows::{Rows, RowsOpenError, UnopenedRows};

/// Opens the rows of a cluster over its parts. Where these aren't as many as there have to be, it is as if memory ran out.
pub fn open(
    alloc: Global,
    parts: Parts<NotingStore>,
    dedupe: bool,
    moment: u64,
) -> Result<Rows<NotingStore>, UnopenedRows<NotingStore>> {
    let Parts { rows, shards } = parts;
    if rows.len() != 8 || shards.len() != 16 {
        return Err(UnopenedRows {
            parts: rows,
            shards,
            error: RowsOpenError::NoMemory,
        });
    }
    let config = RowConfig {
        members: MEMBERS,
        key: KEY,
    };
    Rows::open(alloc, config, rows, shards, dedupe, moment)
}

/// Closes the rows, and gives the parts back.
pub fn close(rows: Rows<NotingStore>) -> Parts<NotingStore> {
    let (rows, shards) = rows.close();
    Parts { rows, shards }
}

/// Opens the rows over parts with the objects of a list. The calls that fail are counted from the first one after the opening.
pub fn opened(answer: &mut Answer, setup: &Setup, list: &str) -> Option<Rows<NotingStore>> {
    let first = opening_calls(answer, setup, list, setup.place);
    let mut failing = Vec::new(answer.alloc());
    for number in &setup.failing {
        answer.keep(failing.push(number.saturating_add(first)), ());
    }
    let parts = parts_of(answer, list, setup.place, failing.as_slice());
    opened_over(answer, parts, setup)
}

/// Opens the rows over parts, which has to go well.
pub fn opened_over(
    answer: &mut Answer,
    parts: Parts<NotingStore>,
    setup: &Setup,
) -> Option<Rows<NotingStore>> {
    match open(answer.alloc(), parts, setup.dedupe, setup.moment) {
        Ok(rows) => Some(rows),
        Err(unopened) => {
            answer.tell(&unopened.error);
            answer.fail("; ");
            None
        }
    }
}

/// How many calls of a part the opening makes where none fails.
pub fn opening_calls(answer: &mut Answer, setup: &Setup, list: &str, place: Place) -> u64 {
    let parts = parts_of(answer, list, Place::Nowhere, &[]);
    match opened_over(answer, parts, setup) {
        Some(rows) => calls_at(&close(rows), place),
        None => 0,
    }
}
