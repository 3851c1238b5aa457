//! The fields of messages, by way of a page.
ghost use Rattle.byte_port.specs.Causes.{HasCause};
ghost use Rattle.byte_port.specs.Pages.{Wrote};
ghost use Rattle.scene_text.specs.Fields.{number_field, two_numbers, flag_text, head_text, contact_text, cursor_text};

use crate::spell::{put_number, put_text};
use byte_port::{Failed, Page, Sink};
use pipe_model::Cursor;

/// Puts a word and a number.
#[tactic(auto, using(byte_port::proofs::Paging::pieces))]
pub fn put_number_field<K: Sink>(
    page: &mut Page,
    sink: &mut K,
    word: &str,
    number: u64,
) -> Result<(), Failed>
    ensures wrote { Wrote result (K.held sink.old) page.old (K.held sink.new) page.new (number_field word.now number) }
    ensures cause { HasCause (K.faults sink.old) (K.faults sink.new) result }
{
    put_text(page, sink, word)?;
    put_number(page, sink, number)
}

/// Puts two words, each with its number.
#[tactic(auto, using(byte_port::proofs::Paging::pieces), unfolding(scene_text::specs::Fields::two_numbers))]
pub fn put_two_numbers<K: Sink>(
    page: &mut Page,
    sink: &mut K,
    word: &str,
    number: u64,
    second_word: &str,
    second: u64,
) -> Result<(), Failed>
    ensures wrote { Wrote result (K.held sink.old) page.old (K.held sink.new) page.new (two_numbers word.now number second_word.now second) }
    ensures cause { HasCause (K.faults sink.old) (K.faults sink.new) result }
{
    put_number_field(page, sink, word, number)?;
    put_number_field(page, sink, second_word, second)
}

/// Puts a word where its flag is set.
#[tactic(auto, using(byte_port::proofs::Paging::pieces))]
pub fn put_flag<K: Sink>(page: &mut Page, sink: &mut K, word: &str, on: bool) -> Result<(), Failed>
    ensures wrote { Wrote result (K.held sink.old) page.old (K.held sink.new) page.new (flag_text word.now on) }
    ensures cause { HasCause (K.faults sink.old) (K.faults sink.new) result }
{
    if on {
        put_text(page, sink, word)
    } else {
        Ok(())
    }
}

/// Puts a word, and whether the message is a reply.
#[tactic(auto, using(byte_port::proofs::Paging::pieces), unfolding(scene_text::specs::Fields::head_text))]
pub fn put_head<K: Sink>(
    page: &mut Page,
    sink: &mut K,
    word: &str,
    reply: bool,
) -> Result<(), Failed>
    ensures wrote { Wrote result (K.held sink.old) page.old (K.held sink.new) page.new (head_text word.now reply) }
    ensures cause { HasCause (K.faults sink.old) (K.faults sink.new) result }
{
    put_text(page, sink, word)?;
    put_flag(page, sink, " reply", reply)
}

/// Puts whether a contact is the first.
#[tactic(auto, using(byte_port::proofs::Paging::pieces))]
pub fn put_contact<K: Sink>(page: &mut Page, sink: &mut K, first: bool) -> Result<(), Failed>
    ensures wrote { Wrote result (K.held sink.old) page.old (K.held sink.new) page.new (contact_text first) }
    ensures cause { HasCause (K.faults sink.old) (K.faults sink.new) result }
{
    put_text(page, sink, if first { " first" } else { " later" })
}

/// Puts a word and a cursor.
#[tactic(auto, using(byte_port::proofs::Paging::pieces), unfolding(scene_text::specs::Fields::cursor_text))]
pub fn put_cursor<K: Sink>(
    page: &mut Page,
    sink: &mut K,
    word: &str,
    cursor: Cursor,
) -> Result<(), Failed>
    ensures wrote { Wrote result (K.held sink.old) page.old (K.held sink.new) page.new (cursor_text word.now cursor) }
    ensures cause { HasCause (K.faults sink.old) (K.faults sink.new) result }
{
    put_number_field(page, sink, word, cursor.wrap as u64)?;
    put_number_field(page, sink, "/", cursor.count as u64)
}
