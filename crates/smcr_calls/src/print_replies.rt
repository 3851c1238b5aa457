//! The texts of replies, by way of a page.
ghost use Rattle.std.specs.Prelude.{◌≡◌, ◌++◌, codes};
ghost use Rattle.byte_port.specs.Causes.{HasCause};
ghost use Rattle.byte_port.specs.Pages.{Wrote};
ghost use Rattle.scene_text.specs.Spelling.{bytes_text, payload_part};
ghost use Rattle.scene_text.specs.ReplyText.{fault_text, kind_text, hold_text, yes_text, lack_text, cause_text, place_text, reply_text};

use crate::fields::{put_number_field, put_two_numbers};
use crate::spell::{put_number, put_part, put_text};
use byte_port::{Failed, Page, Sink};
use pipe_model::{ClcFault, Hold, Lack, PostRef, Reply, ResetCause, SentKind};

/// Puts what is wrong with the bytes of a CLC message.
pub fn put_fault<K: Sink>(page: &mut Page, sink: &mut K, fault: ClcFault) -> Result<(), Failed>
    ensures wrote { Wrote result (K.held sink.old) page.old (K.held sink.new) page.new (fault_text fault) }
    ensures cause { HasCause (K.faults sink.old) (K.faults sink.new) result }
{
    match fault {
        ClcFault::Short => put_text(page, sink, "short"),
        ClcFault::BadEye { place } => put_number_field(page, sink, "bad eye ", place as u64),
        ClcFault::BadType { value } => put_number_field(page, sink, "bad type ", value as u64),
        ClcFault::BadLength { value } => put_number_field(page, sink, "bad length ", value as u64),
        ClcFault::BadVersion { value } => put_number_field(
            page,
            sink,
            "bad version ",
            value as u64,
        ),
        ClcFault::BadTrailer => put_text(page, sink, "bad trailer"),
    }
}

/// The word of a message.
fn kind_word(kind: SentKind) -> &'static str
    ensures { result.now ≡ kind_text kind }
{
    match kind {
        SentKind::Proposal => "proposal",
        SentKind::Accept => "accept",
        SentKind::Confirm => "confirm",
        SentKind::Decline => "decline",
        SentKind::ConfirmLink => "confirm link",
        SentKind::AddLink => "add link",
        SentKind::ConfirmRkey => "confirm rkey",
        SentKind::DeleteRkey => "delete rkey",
        SentKind::TestLink => "test link",
    }
}

/// What a request waits for, in words.
fn hold_word(hold: Hold) -> &'static str
    ensures { result.now ≡ hold_text hold }
{
    match hold {
        Hold::FirstContact => "first contact",
        Hold::AddLink => "add link",
        Hold::ConfirmRkey => "confirm rkey",
        Hold::DeleteRkey => "delete rkey",
        Hold::TestLink => "test link",
        Hold::OldGroup => "old group",
    }
}

/// Puts whether a side is capable.
fn put_yes<K: Sink>(page: &mut Page, sink: &mut K, capable: bool) -> Result<(), Failed>
    ensures wrote { Wrote result (K.held sink.old) page.old (K.held sink.new) page.new (yes_text capable) }
    ensures cause { HasCause (K.faults sink.old) (K.faults sink.new) result }
{
    put_text(page, sink, if capable { " yes" } else { " no" })
}

/// Puts which side is not capable.
#[tactic(auto, using(byte_port::proofs::Paging::pieces))]
fn put_not_capable<K: Sink>(page: &mut Page, sink: &mut K, a: bool, b: bool) -> Result<(), Failed>
    ensures wrote { Wrote result (K.held sink.old) page.old (K.held sink.new) page.new (codes "not capable" ++ (yes_text a ++ yes_text b)) }
    ensures cause { HasCause (K.faults sink.old) (K.faults sink.new) result }
{
    put_text(page, sink, "not capable")?;
    put_yes(page, sink, a)?;
    put_yes(page, sink, b)
}

/// Puts what a side lacks for SMC-R.
fn put_lack<K: Sink>(page: &mut Page, sink: &mut K, lack: Lack) -> Result<(), Failed>
    ensures wrote { Wrote result (K.held sink.old) page.old (K.held sink.new) page.new (lack_text lack) }
    ensures cause { HasCause (K.faults sink.old) (K.faults sink.new) result }
{
    match lack {
        Lack::NotCapable { a, b } => put_not_capable(page, sink, a, b),
        Lack::NoSubnet => put_text(page, sink, "no common subnet"),
        Lack::NoServerElement { elements } => {
            put_number_field(page, sink, "no server element ", elements as u64)
        }
        Lack::Raw => put_text(page, sink, "raw"),
        Lack::NoSlot { links } => put_number_field(page, sink, "no usable slot ", links as u64),
        Lack::GroupLost { named, stands } => {
            put_two_numbers(page, sink, "group lost ", named as u64, " ", stands as u64)
        }
        Lack::NoClientElement { elements } => {
            put_number_field(page, sink, "no client element ", elements as u64)
        }
    }
}

/// Puts that a message had a fault.
#[tactic(auto, using(byte_port::proofs::Paging::pieces))]
fn put_bad_message<K: Sink>(page: &mut Page, sink: &mut K, fault: ClcFault) -> Result<(), Failed>
    ensures wrote { Wrote result (K.held sink.old) page.old (K.held sink.new) page.new (codes "bad message " ++ fault_text fault) }
    ensures cause { HasCause (K.faults sink.old) (K.faults sink.new) result }
{
    put_text(page, sink, "bad message ")?;
    put_fault(page, sink, fault)
}

/// Puts a word, and the word of a message.
#[tactic(auto, using(byte_port::proofs::Paging::pieces))]
fn put_kind<K: Sink>(
    page: &mut Page,
    sink: &mut K,
    word: &str,
    kind: SentKind,
) -> Result<(), Failed>
    ensures wrote { Wrote result (K.held sink.old) page.old (K.held sink.new) page.new (word.now ++ kind_text kind) }
    ensures cause { HasCause (K.faults sink.old) (K.faults sink.new) result }
{
    put_text(page, sink, word)?;
    put_text(page, sink, kind_word(kind))
}

/// Puts why a connection was reset.
fn put_cause<K: Sink>(page: &mut Page, sink: &mut K, cause: ResetCause) -> Result<(), Failed>
    ensures wrote { Wrote result (K.held sink.old) page.old (K.held sink.new) page.new (cause_text cause) }
    ensures cause { HasCause (K.faults sink.old) (K.faults sink.new) result }
{
    match cause {
        ResetCause::OwnAbort => put_text(page, sink, "own abort"),
        ResetCause::PeerAbort => put_text(page, sink, "peer abort"),
        ResetCause::NoLiveLink { group } => put_number_field(
            page,
            sink,
            "no live link ",
            group as u64,
        ),
        ResetCause::Gap { told, taken } => {
            put_two_numbers(page, sink, "gap ", told as u64, " ", taken as u64)
        }
        ResetCause::BadClc(fault) => put_bad_message(page, sink, fault),
        ResetCause::BadStep(kind) => put_kind(page, sink, "bad step ", kind),
    }
}

/// Puts the place of a post in the history.
#[tactic(auto, using(byte_port::proofs::Paging::pieces))]
fn put_place<K: Sink>(page: &mut Page, sink: &mut K, at: PostRef) -> Result<(), Failed>
    ensures wrote { Wrote result (K.held sink.old) page.old (K.held sink.new) page.new (place_text at) }
    ensures cause { HasCause (K.faults sink.old) (K.faults sink.new) result }
{
    put_number(page, sink, at.entry as u64)?;
    put_number_field(page, sink, ".", at.post as u64)
}

/// Puts a word and the place of a post.
#[tactic(auto, using(byte_port::proofs::Paging::pieces))]
fn put_placed<K: Sink>(page: &mut Page, sink: &mut K, word: &str, at: PostRef) -> Result<(), Failed>
    ensures wrote { Wrote result (K.held sink.old) page.old (K.held sink.new) page.new (word.now ++ place_text at) }
    ensures cause { HasCause (K.faults sink.old) (K.faults sink.new) result }
{
    put_text(page, sink, word)?;
    put_place(page, sink, at)
}

/// Puts bytes that were handed out.
#[tactic(auto, using(byte_port::proofs::Paging::pieces))]
fn put_data<K: Sink>(
    page: &mut Page,
    sink: &mut K,
    heard: &[u8],
    from: u32,
    len: u32,
) -> Result<(), Failed>
    ensures wrote { Wrote result (K.held sink.old) page.old (K.held sink.new) page.new (codes "data " ++ bytes_text (payload_part heard.now from len)) }
    ensures cause { HasCause (K.faults sink.old) (K.faults sink.new) result }
{
    put_text(page, sink, "data ")?;
    put_part(page, sink, heard, from, len)
}

/// Puts that a connection was reset, and why.
#[tactic(auto, using(byte_port::proofs::Paging::pieces))]
fn put_reset<K: Sink>(page: &mut Page, sink: &mut K, cause: ResetCause) -> Result<(), Failed>
    ensures wrote { Wrote result (K.held sink.old) page.old (K.held sink.new) page.new (codes "reset " ++ cause_text cause) }
    ensures cause { HasCause (K.faults sink.old) (K.faults sink.new) result }
{
    put_text(page, sink, "reset ")?;
    put_cause(page, sink, cause)
}

/// Puts that a request is held, and what it waits for.
#[tactic(auto, using(byte_port::proofs::Paging::pieces))]
fn put_held<K: Sink>(page: &mut Page, sink: &mut K, hold: Hold) -> Result<(), Failed>
    ensures wrote { Wrote result (K.held sink.old) page.old (K.held sink.new) page.new (codes "held " ++ hold_text hold) }
    ensures cause { HasCause (K.faults sink.old) (K.faults sink.new) result }
{
    put_text(page, sink, "held ")?;
    put_text(page, sink, hold_word(hold))
}

/// Puts that a peer was declined, and what is lacking.
#[tactic(auto, using(byte_port::proofs::Paging::pieces))]
fn put_declined<K: Sink>(page: &mut Page, sink: &mut K, lack: Lack) -> Result<(), Failed>
    ensures wrote { Wrote result (K.held sink.old) page.old (K.held sink.new) page.new (codes "declined " ++ lack_text lack) }
    ensures cause { HasCause (K.faults sink.old) (K.faults sink.new) result }
{
    put_text(page, sink, "declined ")?;
    put_lack(page, sink, lack)
}

/// Puts a reply; `heard` is all that was handed out.
pub fn put_reply<K: Sink>(
    page: &mut Page,
    sink: &mut K,
    heard: &[u8],
    reply: Reply,
) -> Result<(), Failed>
    ensures wrote { Wrote result (K.held sink.old) page.old (K.held sink.new) page.new (reply_text heard.now reply) }
    ensures cause { HasCause (K.faults sink.old) (K.faults sink.new) result }
{
    match reply {
        Reply::Opened => put_text(page, sink, "opened"),
        Reply::NameUsed => put_text(page, sink, "name used"),
        Reply::NoSocket => put_text(page, sink, "no socket"),
        Reply::Wrote(n) => put_number_field(page, sink, "wrote ", n as u64),
        Reply::Full => put_text(page, sink, "full"),
        Reply::Bytes { from, len } => put_data(page, sink, heard, from, len),
        Reply::Empty => put_text(page, sink, "empty"),
        Reply::End => put_text(page, sink, "end"),
        Reply::NotYet => put_text(page, sink, "not yet"),
        Reply::Ended => put_text(page, sink, "ended"),
        Reply::Done => put_text(page, sink, "done"),
        Reply::Idle => put_text(page, sink, "idle"),
        Reply::Reset(cause) => put_reset(page, sink, cause),
        Reply::Established => put_text(page, sink, "established"),
        Reply::FellBack => put_text(page, sink, "fell back"),
        Reply::Held(hold) => put_held(page, sink, hold),
        Reply::Sent(kind) => put_kind(page, sink, "sent ", kind),
        Reply::Declined(lack) => put_declined(page, sink, lack),
        Reply::Landed(at) => put_placed(page, sink, "landed ", at),
        Reply::Completed(at) => put_placed(page, sink, "completed ", at),
        Reply::Dropped(token) => put_number_field(page, sink, "dropped ", token as u64),
        Reply::Moved { from, to } => {
            put_two_numbers(page, sink, "moved ", from as u64, " ", to as u64)
        }
        Reply::GroupEnded(group) => put_number_field(page, sink, "group ended ", group as u64),
    }
}
