// Writing a store as a book.
ghost use Rattle.std.specs.Prelude.{◌≡◌, ◌+◌, ◌<◌, ◌≤◌, [], ◌++◌, length, drop, slice_index_or};
ghost use Rattle.std.proofs.Math.Seq.{paste};
ghost use Rattle.books.specs.Writing.{sized, book_size, written, after_writing, book_of};
ghost use Rattle.stores.specs.Answers.{count_of};

use crate::rule_bytes::RuleBytes;
use crate::stores::Store;
use books::faults::WriteFault;
use grammar::bytes::WORLD;
use grammar::limits::{MOST_BYTES, MOST_RULES, WORLD_SIZE};

// How many bytes the book has.
fn book_length<S: Store>(store: &S) -> Result<usize, WriteFault>
    ensures { result ≡ sized (S.Store.rules store.now) }
{
    let count = store.count();
    if count > MOST_RULES {
        return Err(WriteFault::Rules);
    }
    let mut length = WORLD_SIZE;
    for rule in 0..count {
        length += store.size(rule).unwrap_or(0) as usize;
    }
    if length > MOST_BYTES {
        return Err(WriteFault::Bytes);
    }
    Ok(length)
}

// Copies a rule to a place of the buffer, and returns the place after it, which is what `end` counts.
fn copy_rule<S: Store>(store: &S, rule: u16, out: &mut [u8], place: usize) -> usize
    requires there { rule < count_of (S.Store.rules store.now) }
    requires room { place + length (slice_index_or (S.Store.rules store.now) rule []) ≤ length out.old }
    ensures value { result ≡ place + length (slice_index_or (S.Store.rules store.now) rule []) }
    ensures after { out.new ≡ paste out.old place (slice_index_or (S.Store.rules store.now) rule []) (length (slice_index_or (S.Store.rules store.now) rule [])) }
{
    let mut end = place;
    for byte in RuleBytes::new(store, rule) {
        out[end] = byte;
        end += 1;
    }
    end
}

// Writes the world and the rules at the start of the buffer.
fn copy_rules<S: Store>(store: &S, out: &mut [u8])
    requires few { length (S.Store.rules store.now) ≤ 1024 }
    requires room { book_size (S.Store.rules store.now) ≤ length out.old }
    ensures { out.new ≡ book_of (S.Store.rules store.now) ++ drop (book_size (S.Store.rules store.now)) out.old }
{
    out[0] = WORLD;
    out[1] = 0;
    let mut place = WORLD_SIZE;
    for rule in 0..store.count() {
        place = copy_rule(store, rule, out, place);
    }
}

// Writes a store's rules as a book in world 0, and returns the number of bytes. Bytes beyond stay, and a refusal leaves
// every byte as it was.
pub fn write<S: Store>(store: &S, out: &mut [u8]) -> Result<usize, WriteFault>
    ensures value { result ≡ written (S.Store.rules store.now) (length out.old) }
    ensures after { out.new ≡ after_writing (S.Store.rules store.now) out.old }
{
    let length = book_length(store)?;
    if length > out.len() {
        return Err(WriteFault::Room);
    }
    copy_rules(store, out);
    Ok(length)
}
