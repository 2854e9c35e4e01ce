//! A row that is driven by hand, with the pool that is asked by hand.
use crate::driven::Driven;
use crate::parts::parts_of;
use crate::place::Place;
use crate::setup::Setup;
use std::alloc::Global;
use zot_cases::Answer;
use zot_contents::{PoolCall, PoolReply};
use zot_model::{RowCall, RowReply};
use zot_noting::NotingStore;
use zot_outside::Parts;
use zot_pool::Pool;
use zot_repo::RowNext;

// How many turns a call has at most.
const MOST: u64 = 1000;

/// Where a call stands that is driven by hand.
#[derive(Drop)]
pub enum Standing {
    /// It is to begin.
    Begins,
    /// The pool is to be asked this.
    Asks(PoolCall),
    /// The pool has answered this.
    Answered(PoolReply),
    /// It is answered.
    Done(RowReply),
}

/// A row that is driven by hand, with the pool that is asked by hand.
#[derive(Drop)]
pub struct Hand {
    pub driven: Driven,
    pub pool: Pool<NotingStore>,
}

impl Hand {
    /// Opens the row of a number and the pool, over parts without objects.
    pub fn open(answer: &mut Answer, setup: &Setup, number: u32) -> Option<Hand> {
        let alloc = answer.alloc();
        let (part, pool) = part_and_pool(answer, setup, number)?;
        match Driven::open(alloc, number, part, setup.moment) {
            Ok(driven) => Some(Hand { driven, pool }),
            Err(_) => None,
        }
    }

    /// The answer to a call, for which the pool is asked as often as it takes.
    pub fn answer_to(
        &mut self,
        answer: &mut Answer,
        call: &RowCall,
        moment: u64,
    ) -> Option<RowReply> {
        let mut standing = Standing::Begins;
        for _ in 0..MOST {
            match self.turn(answer.alloc(), call, moment, standing)? {
                Standing::Done(reply) => {
                    answer.confirm(self.driven.pending() == 0, "a call waits; ");
                    return Some(reply);
                }
                other => standing = other,
            }
        }
        None
    }

    /// Makes the next turn of a call, of the row or of the pool. None where the row takes none, or is to ask as often as before.
    pub fn turn(
        &mut self,
        alloc: Global,
        call: &RowCall,
        moment: u64,
        standing: Standing,
    ) -> Option<Standing> {
        match standing {
            Standing::Begins => after(self.driven.start(alloc, call, moment)),
            Standing::Asks(asked) => Some(Standing::Answered(ask(alloc, &mut self.pool, &asked))),
            Standing::Answered(answered) => {
                let before = self.driven.pending();
                let next = self.driven.resume(alloc, answered);
                if self.driven.pending() < before {
                    after(next)
                } else {
                    None
                }
            }
            Standing::Done(reply) => Some(Standing::Done(reply)),
        }
    }

    /// Gives the parts back, of which that of the row is the only one of rows.
    pub fn close(self, answer: &mut Answer) -> Parts<NotingStore> {
        let Hand { driven, pool } = self;
        let mut rows = Vec::new(answer.alloc());
        answer.keep(rows.push(driven.close()), ());
        Parts {
            rows,
            shards: pool.close(),
        }
    }
}

// Where a call stands after a turn of the row.
fn after(next: Option<RowNext>) -> Option<Standing> {
    match next {
        Some(RowNext::Pool(asked)) => Some(Standing::Asks(asked)),
        Some(RowNext::Done(reply)) => Some(Standing::Done(reply)),
        None => None,
    }
}

/// The part of the row of a number, without objects, and a pool over such parts.
pub fn part_and_pool(
    answer: &mut Answer,
    setup: &Setup,
    number: u32,
) -> Option<(NotingStore, Pool<NotingStore>)> {
    let parts = parts_of(answer, "", Place::Nowhere, &[]);
    let Parts { rows, shards } = parts;
    let part = rows.into_iter().nth(number as usize)?;
    if shards.len() != 16 {
        return None;
    }
    match Pool::open(shards, answer.alloc(), setup.dedupe) {
        Ok(pool) => Some((part, pool)),
        Err(_) => None,
    }
}

// The answer of a pool to what a row asks.
fn ask(alloc: Global, pool: &mut Pool<NotingStore>, asked: &PoolCall) -> PoolReply {
    match asked {
        PoolCall::Attach(_, _, _)
        | PoolCall::Mount(_, _, _)
        | PoolCall::Read(_, _)
        | PoolCall::Detach(_, _) => pool.call(alloc, asked),
        PoolCall::Holdings => PoolReply::Nothing,
    }
}
