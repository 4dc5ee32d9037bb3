//! A hash map that four threads write at once. Proved: at its place among all commits, each put that is told of leaves bytes
//! of a map with that put done, if it found a map there, and each look tells what is there. A thread makes one commit for each
//! pair that it puts, and no other. So the bytes are always of a map with such pairs alone; where none tells a lost key, they
//! are of all pairs, there were as many commits as puts, and as many of these were of a new key as there are keys.
#![tactic(auto)]

ghost use Rattle.std.specs.Prelude.{◌≡◌, ◌+◌, ◌-◌, ◌*◌, ◌%◌, ◌^◌, ◌≤◌, ◌<◌, false, min, IfOk, IfSome};
ghost use Rattle.transactions.specs.Lent.{IsLeft, mine_of};
ghost use Rattle.transactions.specs.Runs.{mine_left};
ghost use Rattle.tx_map.specs.Pairs.{HasAllPairs, HasOnlyPairs};
ghost use Rattle.tx_map.specs.Puts.{HasGot, HasPut, added_of, is_put};
ghost use Rattle.tx_map.specs.Tables.{IsEmpty};
ghost use Rattle.tx_map.specs.Told.{AllTell, HasCommitted, HasLed, told_in_all};
ghost use Rattle.tx_map.specs.Written.{HasWritten, HasWrittenSome};

mod table;

use crate::table::{Pair, Put, Table};
use anyhow::{Context, Result};
use std::alloc::{AllocError, Global};
use std::thread::Threads;
use transactions::{Client, Done, Failed};
use tx_threads::run;
use typed_cells::Places;

/// How many keys there are. Each thread puts 64, and half of them are those of the one before it.
const KEYS: u32 = 160;

type Told<T> = Result<Done<T>, Failed<()>>;

/// Puts a key as one transaction.
fn put(client: &mut Client, table: &Table, key: u32, value: u32) -> Told<Put>
    requires { 0 < key }
    ensures left { IsLeft (mine_left (mine_of client.old.transaction) result) client.old.transaction client.new.transaction }
    ensures put { IfOk result (λ done. HasLed is_put (HasPut table.now.slots.first table.now.slots.count key value) done client.new.transaction.thread) }
{
    client.atomically(|tx| Ok(table.put(tx, key, value)?))
}

/// Looks for a key as one transaction.
fn get(client: &mut Client, table: &Table, key: u32) -> Told<Option<u32>>
    requires { 0 < key }
    ensures left { IsLeft (mine_left (mine_of client.old.transaction) result) client.old.transaction client.new.transaction }
    ensures got { IfOk result (λ done. HasLed (λ _. false) (HasGot table.now.slots.first table.now.slots.count key) done client.new.transaction.thread) }
{
    client.atomically(|tx| Ok(table.get(tx, key)?))
}

/// The key and the value of this number. Five keys each have one home.
fn pair_of(number: u32) -> Pair
    requires { number < KEYS }
    ensures { result ≡ (8 * number + 1, number + 1000) }
{
    (8 * number + 1, number + 1000)
}

/// Puts the pair of this number and looks for it. Tells what came of the put, or nothing where the pair is not found.
fn put_pair(client: &mut Client, table: &Table, number: u32) -> Option<Put>
    requires { number < KEYS }
    ensures words { client.new.transaction.words ≡ client.old.transaction.words }
    ensures some { HasWrittenSome table.now.slots.first table.now.slots.count number 1 client.old.transaction client.new.transaction }
    ensures written { IfSome result (λ put. HasWritten table.now.slots.first table.now.slots.count number 1 (added_of put) client.old.transaction client.new.transaction) }
{
    let (key, value) = pair_of(number);
    let told = put(client, table, key, value).ok()?;
    let found = get(client, table, key).ok()?;
    if found.value != Some(value) {
        return None;
    }
    match told.value {
        Put::Full => None,
        told => Some(told),
    }
}

/// What a thread does: it puts its pairs and looks for each. It tells how many were new, or nothing where one is not found.
fn write_all(client: &mut Client, table: &Table, thread: usize) -> Option<u64>
    ensures words { client.new.transaction.words ≡ client.old.transaction.words }
    ensures some { HasWrittenSome table.now.slots.first table.now.slots.count (32 * (thread % 4)) 64 client.old.transaction client.new.transaction }
    ensures written { IfSome result (λ added. HasWritten table.now.slots.first table.now.slots.count (32 * (thread % 4)) 64 added client.old.transaction client.new.transaction) }
{
    let mut added = 0u64;
    for n in 0..64 {
        let told = put_pair(client, table, 32 * (thread % 4) as u32 + n)?;
        added += told.added();
    }
    Some(added)
}

/// How many puts of all threads were of new keys, or nothing where a thread tells nothing.
fn added_by(told: &[Option<u64>]) -> Option<u64>
    ensures tell { IfSome result (λ _. AllTell told.now) }
    ensures sum { IfSome result (λ added. added ≡ min (told_in_all told.now) (2 ^ 64 - 1)) }
{
    let mut added = 0u64;
    for by_one in told {
        let more = (*by_one)?;
        added = added.saturating_add(more);
    }
    Some(added)
}

/// Bytes with an empty map.
fn empty(alloc: Global, table: &Table, size: usize) -> Result<Vec<u8>, AllocError>
    requires { table.now.slots.first + 8 * table.now.slots.count ≤ size }
    ensures { IfOk result (λ bytes. IsEmpty table.now.slots.first table.now.slots.count bytes.items) }
{
    vec![in alloc; 0u8; size]
}

/// Four threads write into the bytes. Tells how many puts were of a new key, and how many commits led to the bytes.
fn write_together<R: Threads + Sync>(
    rt: &R,
    alloc: Global,
    table: &Table,
    bytes: &mut [u8],
) -> Result<(u64, u64)>
    requires { IsEmpty table.now.slots.first table.now.slots.count bytes.old }
    ensures only { HasOnlyPairs table.now.slots.first table.now.slots.count KEYS bytes.new }
    ensures all { IfOk result (λ _. HasAllPairs table.now.slots.first table.now.slots.count KEYS bytes.new) }
    ensures added { IfOk result (λ told. told.0 ≡ KEYS) }
    ensures commits { IfOk result (λ told. told.1 ≡ 4 * 64) }
    ensures history { IfOk result (λ told. HasCommitted told.1 bytes.old bytes.new) }
{
    let write = |thread, client: &mut Client| write_all(client, table, thread);
    let joined = run(rt, alloc, bytes, 4, u64::MAX, &write)?;
    let added = added_by(joined.values.as_slice()).context("a key is lost")?;
    Ok((added, joined.clock / 2))
}

fn main(rt: HostRuntime) -> Result<()> {
    let alloc = rt.alloc();
    let mut places = Places::new();
    let table = Table::new(&mut places, 256).context("no room for the map")?;
    let mut bytes = empty(alloc, &table, places.size())?;
    let (added, commits) = write_together(&rt, alloc, &table, bytes.as_mut_slice())?;
    println!(rt; "{added} of {commits} puts were of new keys, {KEYS} are in the bytes")?;
    Ok(())
}
