//! Writes the last reply of a store, and why its last call was refused.
ghost use Rattle.std.specs.Prelude.{◌≡◌};
ghost use Rattle.external_term.specs.Encoding.{encode_with_version};
ghost use Rattle.term_text.specs.Printed.{text_of_term};
ghost use Rattle.node_text.specs.Answers.{WritesReply, WritesText, WritesReason, written_reply};

use crate::copy::copy_prefix;
use crate::last_refusal::LastRefusal;
use crate::status::{UNTOLD, VALUE, status_of};
use crate::store::Store;
use ets_term::Term;
use external_term::write_external;
use node_core::Reply;
use std::alloc::Global;
use term_text::print_term;

/// The vector for a reply's bytes is kept for the next reply if its capacity is at most this. The memory of a longer
/// reply is freed.
const MAX_KEPT: usize = 65536;

impl Store {
    /// Returns the reply to the last step that was run.
    pub fn reply(&self) -> &Reply
        ensures { result.now ≡ self.now.reply }
    {
        &self.reply
    }

    /// Returns why the last call was refused, if it was.
    pub fn refusal(&self) -> Option<LastRefusal>
        ensures { result ≡ self.now.refusal }
    {
        self.refusal
    }

    /// Returns the status of the last reply. If it is `VALUE`, writes as much of the reply's text as fits into `out`,
    /// and its full length to `len`. Otherwise `len` is 0. Returns `UNTOLD` if memory runs out for the text.
    pub fn write_reply(&self, alloc: Global, out: &mut [u8], len: &mut usize) -> i32
        ensures { WritesReply text_of_term self.now.reply (written_reply result len.new out.old out.new) }
    {
        write_text(alloc, &self.reply, out, len)
    }

    /// Returns the status of the last reply. If it is `VALUE`, writes as many of the reply's bytes in the external
    /// format as fit into `out`, and their number to `len`. Otherwise `len` is 0. Returns `UNTOLD` if memory runs out
    /// for the bytes. Changes nothing else that a contract sees.
    pub fn write_reply_external(&mut self, out: &mut [u8], len: &mut usize) -> i32
        ensures same { self.new ≡ self.old }
        ensures writes { WritesReply encode_with_version self.old.reply (written_reply result len.new out.old out.new) }
    {
        write_bytes(&self.reply, &mut self.bytes, out, len)
    }

    /// Writes why the last call was refused: as much of the text as fits into `out`, and its full length to `len`. The
    /// length is 0 if the call was not refused. Returns `VALUE`, or `UNTOLD` if memory runs out for the text.
    pub fn write_reason(&self, alloc: Global, out: &mut [u8], len: &mut usize) -> i32
        ensures { WritesReason self.now.refusal (written_reply result len.new out.old out.new) }
    {
        write_refusal(alloc, self.refusal, out, len)
    }
}

/// Returns the status of a reply. If it is `VALUE`, writes as much of the reply's text as fits into `out`, and its full
/// length to `len`.
pub(crate) fn write_text(alloc: Global, reply: &Reply, out: &mut [u8], len: &mut usize) -> i32
    ensures { WritesReply text_of_term reply.now (written_reply result len.new out.old out.new) }
{
    *len = 0;
    let Reply::Value(term) = reply else {
        return status_of(reply);
    };
    let mut text = String::new(alloc);
    if print_term(alloc, term, &mut text).is_err() {
        return UNTOLD;
    }
    *len = text.len();
    copy_prefix(text.as_bytes(), out);
    VALUE
}

/// Returns the status of a reply. If it is `VALUE`, writes as many of the reply's bytes in the external format as fit
/// into `out`, and their number to `len`. Makes the bytes in `kept`, and frees its memory if it is large.
pub(crate) fn write_bytes(reply: &Reply, kept: &mut Vec<u8>, out: &mut [u8], len: &mut usize) -> i32
    ensures { WritesReply encode_with_version reply.now (written_reply result len.new out.old out.new) }
{
    *len = 0;
    let Reply::Value(term) = reply else {
        return status_of(reply);
    };
    let status = write_term_external(term, kept, out, len);
    if kept.capacity() > MAX_KEPT {
        kept.clear();
        kept.shrink_to_fit();
    }
    status
}

/// Writes the reason of a refusal: as much of the text as fits into `out`, and its full length to `len`. The length is
/// 0 if there is no refusal.
pub(crate) fn write_refusal(
    alloc: Global,
    refusal: Option<LastRefusal>,
    out: &mut [u8],
    len: &mut usize,
) -> i32
    ensures { WritesReason refusal (written_reply result len.new out.old out.new) }
{
    *len = 0;
    let Some(refusal) = refusal else {
        return VALUE;
    };
    let Ok(words) = refusal.text(alloc) else {
        return UNTOLD;
    };
    *len = words.len();
    copy_prefix(words.as_bytes(), out);
    VALUE
}

/// Writes as many of a term's bytes in the external format as fit into `out`, and their number to `len`. Makes the
/// bytes in the vector, in place of what it has. Returns `VALUE`, or `UNTOLD` if memory runs out for the bytes.
fn write_term_external(term: &Term, bytes: &mut Vec<u8>, out: &mut [u8], len: &mut usize) -> i32
    requires { len.old ≡ 0 }
    ensures { WritesText (encode_with_version term.now) (written_reply result len.new out.old out.new) }
{
    bytes.clear();
    if write_external(term, bytes).is_err() {
        return UNTOLD;
    }
    *len = bytes.len();
    copy_prefix(bytes.as_slice(), out);
    VALUE
}
