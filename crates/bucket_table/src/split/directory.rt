//! The directory: the place of each ready bucket's dummy, the first node of the bucket. It is an array in segments, so
//! that a doubling copies at most the first segment.
ghost use Rattle.std.specs.Prelude.{◌≡◌, ◌∷◌, ◌++◌, ◌<◌, ◌≤◌, ◌-◌, ◌^◌, [], Some, None, IfOk, OnOk, OnErr, length, get_or, set, replicate, vec_capacity};
ghost use Rattle.bucket_table.specs.inside.Segments.{SetsLink, AddsSegments};

use node_list::{At, Link};
use std::alloc::{AllocError, Global};
use std::marker::Model;

/// The greatest number of links in a segment of the directory, one link per bucket. A segment thus takes 128 KiB, which
/// bounds the links that a doubling copies.
const MAX_LINKS_PER_SEGMENT: usize = 32768;

/// The directory: for each bucket the place of its dummy, or none if the bucket is not ready. It is stored in segments,
/// so that a doubling copies at most the first one. In each segment only the links up to its last ready bucket are
/// written.
#[derive(Drop)]
pub struct Directory {
    first_segment: Vec<Link>,
    later_segments: Vec<Vec<Link>>,
    buckets: usize,
}

// The value that contracts see of this type (`view`), and what is true of its fields between calls (`invariant`).
impl Model for Directory {
    ghost use Rattle.std.specs.Prelude.{List, Option, ℕ};
    ghost use Rattle.std.specs.Coded.{coded_list, coded_option, coded_ℕ};
    ghost use Rattle.bucket_table.specs.inside.Segments.{links_of, HasRoom};

    ghost Value = { List (Option ℕ) };

    ghost coded = { coded_list (coded_option coded_ℕ) };

    ghost view = { λ d. links_of d.first_segment d.later_segments.items d.buckets };

    ghost invariant = { λ d. HasRoom d.first_segment d.later_segments.items d.buckets };
}

impl Directory {
    /// Creates a directory of two buckets. The first is ready, with its dummy at `first`.
    pub fn new(alloc: Global, first: At) -> Result<Directory, AllocError>
        requires { first < 2 ^ 32 - 1 }
        ensures { IfOk result (λ directory. directory ≡ Some first ∷ None ∷ []) }
    {
        let mut first_segment = Vec::with_capacity(alloc, 2)?;
        first_segment.push_reserved(Link::to(first));
        Ok(Directory {
            first_segment,
            later_segments: Vec::new(alloc),
            buckets: 2,
        })
    }

    /// Returns the number of buckets.
    pub fn len(&self) -> usize
        ensures { result ≡ length self.now }
    {
        self.buckets
    }

    /// Returns the place of a bucket's dummy, if the bucket is ready.
    pub fn get(&self, bucket: usize) -> Option<At>
        ensures { result ≡ get_or self.now bucket None }
    {
        if bucket < MAX_LINKS_PER_SEGMENT {
            return link_at(self.first_segment.as_slice(), bucket);
        }
        // `later_segments` begins with the second segment.
        let segment = bucket / MAX_LINKS_PER_SEGMENT - 1;
        let index = bucket % MAX_LINKS_PER_SEGMENT;
        if segment < self.later_segments.len() {
            link_at(self.later_segments[segment].as_slice(), index)
        } else {
            None
        }
    }

    /// Makes a bucket ready, with its dummy at `at`.
    pub fn set(&mut self, bucket: usize, at: At)
        requires below { bucket < length self.old }
        requires place { at < 2 ^ 32 - 1 }
        ensures { self.new ≡ set self.old bucket (Some at) }
    {
        if bucket < MAX_LINKS_PER_SEGMENT {
            set_link(&mut self.first_segment, bucket, at);
        } else {
            // `later_segments` begins with the second segment.
            let segment = bucket / MAX_LINKS_PER_SEGMENT - 1;
            let index = bucket % MAX_LINKS_PER_SEGMENT;
            set_link(&mut self.later_segments[segment], index, at);
        }
    }

    /// Doubles the number of buckets. The new buckets are not ready.
    pub fn double(&mut self) -> Result<(), AllocError>
        requires { length self.old < 2 ^ 20 }
        ensures ok { OnOk result (self.new ≡ self.old ++ replicate (length self.old) None) }
        ensures err { OnErr result (self.new ≡ self.old) }
    {
        let buckets = 2 * self.buckets;
        let in_first_segment = buckets.min(MAX_LINKS_PER_SEGMENT);
        // The number of links that may still be written to the first segment.
        let missing = in_first_segment.saturating_sub(self.first_segment.len());
        self.first_segment.reserve(missing)?;
        // The number of later segments that these buckets need.
        let later = buckets.saturating_sub(1) / MAX_LINKS_PER_SEGMENT;
        add_segments(&mut self.later_segments, later)?;
        self.buckets = buckets;
        Ok(())
    }
}

/// Returns the place in the link at an index of a segment. Returns `None` if the link is not written, or has no place.
fn link_at(segment: &[Link], index: usize) -> Option<At>
    ensures { result ≡ get_or segment.now index None }
{
    if index < segment.len() {
        segment[index].get()
    } else {
        None
    }
}

/// Sets a link of a segment that has capacity for it.
fn set_link(segment: &mut Vec<Link>, index: usize, at: At)
    requires room { index < vec_capacity segment.old }
    requires place { at < 2 ^ 32 - 1 }
    ensures link { SetsLink index at segment.old.items segment.new.items }
    ensures capacity { vec_capacity segment.old ≤ vec_capacity segment.new }
{
    if index >= segment.len() {
        // The segment has capacity for the link, so this takes no memory.
        let _outcome = segment.resize(index + 1, Link::none());
    }
    segment[index] = Link::to(at);
}

/// Adds empty segments, with capacity for all their links, until there are `count` segments. If memory runs out, the
/// segments added so far stay.
fn add_segments(segments: &mut Vec<Vec<Link>>, count: usize) -> Result<(), AllocError>
    ensures adds { AddsSegments segments.old.items segments.new.items }
    ensures ok { OnOk result (count ≤ length segments.new.items) }
{
    for _ in segments.len()..count {
        let segment = Vec::with_capacity(*segments.allocator(), MAX_LINKS_PER_SEGMENT)?;
        segments.push(segment)?;
    }
    Ok(())
}
