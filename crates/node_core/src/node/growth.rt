//! The two steps of growth of a table. One doubles the number of buckets; the other readies a bucket: it inserts the
//! bucket's dummy, the list node at its start.
ghost use Rattle.std.specs.Prelude.{◌≡◌, IfOk, OnErr};
ghost use Rattle.node_core.specs.rules.Growth.{in_table, Grows, Readies};

use super::Node;
use super::replies::atom_reply;
use crate::step::Reply;
use ets_term::KeyHash;
use std::alloc::AllocError;

impl<H: KeyHash + Copy + Drop> Node<H> {
    /// Doubles the number of buckets of a table, unless the number is the greatest. The reply is `ok` in both cases,
    /// and `badarg` if there is no such table.
    pub(crate) fn grow(&mut self, id: u32) -> Result<Reply, AllocError>
        ensures ok { IfOk result (λ r. in_table self.old id Grows r self.new) }
        ensures err { OnErr result (self.new ≡ self.old) }
    {
        let alloc = self.alloc;
        let Some(table) = self.table_mut(id) else {
            return Ok(Reply::Badarg);
        };
        table.grow()?;
        Ok(atom_reply(alloc, b"ok"))
    }

    /// Readies a bucket of a table. The reply is `ok`, also if the bucket was ready before or the table has no such
    /// bucket. It is `badarg` if there is no such table.
    pub(crate) fn ready(&mut self, id: u32, bucket: u32) -> Result<Reply, AllocError>
        ensures ok { IfOk result (λ r. in_table self.old id (Readies bucket) r self.new) }
        ensures err { OnErr result (self.new ≡ self.old) }
    {
        let alloc = self.alloc;
        let Some(table) = self.table_mut(id) else {
            return Ok(Reply::Badarg);
        };
        table.ready(bucket)?;
        Ok(atom_reply(alloc, b"ok"))
    }
}
