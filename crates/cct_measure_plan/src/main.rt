//! A benchmark for people: plans an amount out of so many trays, and prints how many coins the plan
//! has, or `none` where there is none, as for more trays or a greater amount than a table takes.
//!
//! Its three words are the number of trays, the amount, and the stock of each tray. The coins of
//! the trays are worth 1 and 2 by turns: the less a coin is worth, the more a row of the table
//! takes to fill.
//!
//! Other words end it with exit status 2, and want of memory ends it with 3.
#![tactic(auto)]

use arrayvec::ArrayVec;
use cct_plan::{GREATEST_AMOUNT, TRAYS, Table, Tray};
use std::process::ExitCode;
use std::rt::Env;
use std::{env, io};

/// What is asked of a table.
#[derive(Clone, Copy)]
struct Task {
    trays: u8,
    amount: u32,
    stock: u32,
}

fn main(rt: HostRuntime) -> io::Result<ExitCode> {
    let Some(task) = asked(&rt) else {
        return Ok(ExitCode::from(2));
    };
    let Ok(mut table) = Table::new(rt.alloc()) else {
        return Ok(ExitCode::from(3));
    };
    match coins(&mut table, task) {
        Some(coins) => println!(rt; "{coins}")?,
        None => println!(rt; "none")?,
    }
    Ok(ExitCode::SUCCESS)
}

/// The task that the words of the command line give.
fn asked(rt: &(impl Env + AllocGlobal)) -> Option<Task> {
    let words: Vec<String> = env::args(rt).ok()?.skip(1).collect(rt.alloc()).ok()?;
    let [trays, amount, stock] = words.as_slice() else {
        return None;
    };
    Some(Task {
        trays: trays.parse().ok()?,
        amount: amount.parse().ok()?,
        stock: stock.parse().ok()?,
    })
}

/// How many coins the plan has.
fn coins(table: &mut Table, task: Task) -> Option<u32> {
    if task.amount > GREATEST_AMOUNT {
        return None;
    }
    let mut trays: ArrayVec<Tray, TRAYS> = ArrayVec::new();
    for place in 0..task.trays {
        let tray = Tray {
            addr: place,
            value: place as u32 % 2 + 1,
            stock: task.stock,
        };
        trays.try_push(tray).ok()?;
    }
    let mut counts = ArrayVec::new();
    if !table.plan(trays.as_slice(), task.amount, &mut counts) {
        return None;
    }
    let mut coins = 0u32;
    for count in counts.as_slice() {
        coins = coins.saturating_add(*count as u32);
    }
    Some(coins)
}
