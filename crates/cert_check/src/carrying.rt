//! The statements of a map and the entries of a list that affect a block.
ghost use Rattle.std.specs.Prelude.{◌≡◌, ℕ, ◌&&◌, ◌||◌, ◌++◌, ◌∷◌, [], nat_le, nat_lt, IfOk, OnOk, if◌then◌else◌};
ghost use Rattle.std.specs.List.{list_any};
ghost use Rattle.cert_check.specs.Carried.{carried_to, entries_carried_to};
ghost use Rattle.cert_check.specs.Carried.{covers_whole as covers_whole_of, is_inside as is_inside_of};
ghost use Rattle.cert_check.specs.Carried.{meets_block as meets_block_of, spans_block as spans_block_of};

use pmap_model::{Entry, Statement};
use prefix_keys::Block;
use std::alloc::{AllocError, Global};

fn covers_whole(entry: &Entry, block: &Block) -> bool
    ensures { result ≡ covers_whole_of block.now entry.now }
{
    entry.block.len <= block.len && entry.block.covers(&block.low())
}

fn is_inside(entry: &Entry, block: &Block) -> bool
    ensures { result ≡ is_inside_of block.now entry.now }
{
    block.len < entry.block.len && block.covers(&entry.block.low())
}

fn meets_block(statement: &Statement, block: &Block) -> bool
    ensures { result ≡ meets_block_of block.now statement.now }
{
    let (own, within) = (statement.span, block.span());
    own.low.version == block.version
        && (own.low.value <= within.high.value && within.low.value <= own.high.value)
}

fn spans_block(statement: &Statement, block: &Block) -> bool
    ensures { result ≡ spans_block_of block.now statement.now }
{
    let (own, within) = (statement.span, block.span());
    own.low.version == block.version
        && (own.low.value <= within.low.value && within.high.value <= own.high.value)
}

// Adds the statement if it meets the block. If it covers the whole block, it replaces the others.
fn add_statement(
    kept: &mut Vec<Statement>,
    statement: &Statement,
    block: &Block,
) -> Result<(), AllocError>
    ensures { OnOk result (kept.new.items ≡ (if meets_block_of block.now statement.now
        then (if spans_block_of block.now statement.now then [] else kept.old.items) ++ statement.now ∷ []
        else kept.old.items)) }
{
    if meets_block(statement, block) {
        if spans_block(statement, block) {
            kept.truncate(0);
        }
        kept.push(*statement)?;
    }
    Ok(())
}

/// Returns the statements that meet the block, from the last one that covers the whole block (all of them if none
/// does), in the given order. No other statement affects the block. A statement of another version doesn't meet it.
pub fn carried(
    alloc: Global,
    statements: &[Statement],
    block: &Block,
) -> Result<Vec<Statement>, AllocError>
    ensures { IfOk result (λ kept. kept.items ≡ carried_to block.now statements.now) }
{
    let mut kept = Vec::new(alloc);
    for statement in statements {
        add_statement(&mut kept, statement, block)?;
    }
    Ok(kept)
}

// Returns the length of the entry if it covers the block and is longer than `longest`, otherwise `longest`.
fn longer(longest: u32, entry: &Entry, block: &Block) -> u32
    ensures { result ≡ (if covers_whole_of block.now entry.now && nat_lt longest entry.now.block.len
        then entry.now.block.len else longest) }
{
    if longest < entry.block.len && covers_whole(entry, block) {
        entry.block.len
    } else {
        longest
    }
}

// Returns the length of the longest entry that covers the block, 0 if none does.
fn longest_covering(entries: &[Entry], block: &Block) -> u32
    ensures { (k : ℕ) → nat_lt k result
        ≡ list_any (λ e. covers_whole_of block.now e && nat_lt k e.block.len) entries.now }
{
    let mut longest = 0;
    for entry in entries {
        longest = longer(longest, entry, block);
    }
    longest
}

// Returns whether the entry lies inside the block, or covers it and is no shorter than `longest`.
fn affects(entry: &Entry, block: &Block, longest: u32) -> bool
    ensures { result ≡ (covers_whole_of block.now entry.now && nat_le longest entry.now.block.len
        || is_inside_of block.now entry.now) }
{
    (longest <= entry.block.len && covers_whole(entry, block)) || is_inside(entry, block)
}

/// Returns the longest entry that covers the block, if there is one, and those strictly inside it, in the given order.
/// If several equal blocks are the longest, all are returned; a `PrefixList` has no equal blocks. No other entry
/// affects the block. An entry of another version covers no address of it.
pub fn carried_entries(
    alloc: Global,
    entries: &[Entry],
    block: &Block,
) -> Result<Vec<Entry>, AllocError>
    ensures { IfOk result (λ kept. kept.items ≡ entries_carried_to block.now entries.now) }
{
    let longest = longest_covering(entries, block);
    let mut kept = Vec::new(alloc);
    for entry in entries {
        if affects(entry, block, longest) {
            kept.push(*entry)?;
        }
    }
    Ok(kept)
}
