//! A plain evaluation of queries: whether a query without groups holds a word, by cases on whole words.
//!
//! A word is the list of its packets, at most four. The first comes in, the second goes out, and so on.
ghost use Rattle.std.specs.Prelude.{◌≤◌, length};

use pq_fields::{Packet, Pred, holds};
use pq_query::Query;

/// Whether the query holds the word.
#[cycle(plain)]
pub(crate) fn holds_word(query: &Query, word: &[Packet]) -> bool
    requires { length word.now ≤ 4 }
{
    match query {
        Query::In(pred, _) => is_in(pred, word),
        Query::Out(pred, _) => is_sent(&Pred::True, pred, word),
        Query::InOut(pred, _, other, _) => is_sent(pred, other, word),
        Query::End(pred) => is_dropped(pred, word),
        Query::Cat(operands) => is_joined(operands, word),
        Query::Or(operands) => one_holds(operands, word),
        Query::And(operands) => all_hold(operands, word),
        Query::Not(operand) => !holds_word(operand, word),
        Query::Star(operand) => is_repeated(operand, word),
    }
}

/// Whether the word is one packet, of which the predicate holds.
fn is_in(pred: &Pred, word: &[Packet]) -> bool {
    match word {
        [x] => holds(pred, x),
        _ => false,
    }
}

/// Whether the word is two packets, of which the predicates hold, and the second is at a port other than 0.
fn is_sent(first: &Pred, second: &Pred, word: &[Packet]) -> bool {
    match word {
        [x, y] => holds(first, x) && holds(second, y) && y.port != 0,
        _ => false,
    }
}

/// Whether the word is two packets: the predicate holds of the first, and the second is at port 0.
fn is_dropped(pred: &Pred, word: &[Packet]) -> bool {
    match word {
        [x, y] => holds(pred, x) && y.port == 0,
        _ => false,
    }
}

/// Whether one of the queries holds the word.
#[cycle(plain)]
fn one_holds(operands: &[Query], word: &[Packet]) -> bool
    requires { length word.now ≤ 4 }
{
    for query in operands {
        if holds_word(query, word) {
            return true;
        }
    }
    false
}

/// Whether each of the queries holds the word.
#[cycle(plain)]
fn all_hold(operands: &[Query], word: &[Packet]) -> bool
    requires { length word.now ≤ 4 }
{
    for query in operands {
        if !holds_word(query, word) {
            return false;
        }
    }
    true
}

/// Whether the word is pieces of the queries, one after another, joined.
#[cycle(plain)]
fn is_joined(operands: &[Query], word: &[Packet]) -> bool
    requires { length word.now ≤ 4 }
{
    let mut begins = [true, false, false, false, false];
    for query in operands {
        begins = behind(query, word, begins);
    }
    begins[word.len()]
}

/// Whether the word is any number of pieces of the query, joined.
#[cycle(plain)]
fn is_repeated(query: &Query, word: &[Packet]) -> bool
    requires { length word.now ≤ 4 }
{
    let mut begins = [true, false, false, false, false];
    for begin in 0..word.len() {
        if begins[begin] {
            mark_behind(query, word, begin, &mut begins);
        }
    }
    begins[word.len()]
}

/// The places where the next piece may begin after a piece of the query that begins at one of these places.
#[cycle(plain)]
fn behind(query: &Query, word: &[Packet], begins: [bool; 5]) -> [bool; 5]
    requires { length word.now ≤ 4 }
{
    let mut next = [false; 5];
    for begin in 0..word.len() + 1 {
        if begins[begin] {
            mark_behind(query, word, begin, &mut next);
        }
    }
    next
}

/// Marks the places where the next piece may begin after a piece of the query that begins at this place.
#[cycle(plain)]
fn mark_behind(query: &Query, word: &[Packet], begin: usize, marks: &mut [bool; 5])
    requires short { length word.now ≤ 4 }
    requires begin { begin ≤ length word.now }
{
    for end in begin..word.len() + 1 {
        if holds_word(query, &word[begin..end]) {
            mark(word.len(), begin, end, marks);
        }
    }
}

/// Marks the place where the next piece may begin after a piece between these places of a word so long. After a piece
/// that ends with a packet that comes in, one that goes out is before the next piece, which isn't empty.
fn mark(length: usize, begin: usize, end: usize, marks: &mut [bool; 5])
    requires begin { begin ≤ end }
    requires end { end ≤ length }
    requires short { length ≤ 4 }
{
    if end == length || (end - begin) % 2 == 0 {
        marks[end] = true;
    } else if end + 1 < length {
        marks[end + 1] = true;
    }
}
