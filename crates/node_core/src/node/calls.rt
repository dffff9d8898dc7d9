//! The dispatch from a call's name and number of arguments to its method. Six frequent calls are tried first: `lookup`,
//! `member`, `insert`, `delete/2`, `update_counter/3` and `update_element/3`. Of the others, those that change nothing
//! come first.
ghost use Rattle.std.specs.Prelude.{◌≡◌, [], ◌∷◌, false};
ghost use Rattle.node_core.specs.Calls.{call};
ghost use Rattle.node_core.specs.Reads.{reads_only};
ghost use Rattle.node_core.specs.inside.Refusals.{RefinesInto, RefinesRead};

use super::Node;
use super::replies::{write_reply, write_true, write_truth, write_value};
use super::updates::Update;
use crate::call_name::CallName;
use crate::step::Reply;
use ets_term::{KeyHash, Term};
use table_ops::Refusal;

impl<H: KeyHash + Copy + Drop> Node<H> {
    /// Makes a call, and writes its reply. The six frequent calls come first. All others are in `make_rare_call`, which
    /// is not inlined, so that the code for the frequent calls stays short.
    #[inline(always)]
    pub(crate) fn make_call(
        &mut self,
        pid: u32,
        name: CallName,
        args: &[Term],
        reply: &mut Reply,
    ) -> Result<(), Refusal>
        ensures { RefinesInto (call self.old pid name args.now) self.old result reply.new self.new }
    {
        match args {
            [x, y] => match name {
                CallName::Lookup => self.lookup_into(pid, x, y, reply),
                CallName::Member => self.member_into(pid, x, y, reply),
                CallName::Insert => self.insert_into(pid, x, y, reply),
                CallName::Delete => self.delete_into(pid, x, y, reply),
                _ => self.make_rare_call(pid, name, args, reply),
            },
            [x, y, z] => {
                let update = Update {
                    key: y,
                    changes: z,
                    default: None,
                };
                match name {
                    CallName::UpdateCounter => self.update_counter_into(pid, x, update, reply),
                    CallName::UpdateElement => self.update_element_into(pid, x, update, reply),
                    _ => self.make_rare_call(pid, name, args, reply),
                }
            }
            _ => self.make_rare_call(pid, name, args, reply),
        }
    }

    /// Makes any call, and writes its reply. Frequent calls have functions of their own, which `make_call` tries before
    /// this one. It makes them too, because its contract holds for each name.
    #[inline(never)]
    fn make_rare_call(
        &mut self,
        pid: u32,
        name: CallName,
        args: &[Term],
        reply: &mut Reply,
    ) -> Result<(), Refusal>
        ensures { RefinesInto (call self.old pid name args.now) self.old result reply.new self.new }
    {
        match self.read_call(pid, name, args, reply) {
            Some(result) => result,
            None => self.change_call(pid, name, args, reply),
        }
    }

    /// Makes a call that changes nothing, and writes its reply; returns `None` for any other call.
    pub(crate) fn read_call(
        &self,
        pid: u32,
        name: CallName,
        args: &[Term],
        reply: &mut Reply,
    ) -> Option<Result<(), Refusal>>
        ensures { RefinesRead self.now pid name args.now result reply.new }
    {
        match args {
            [x] => self.read_call_of_one(pid, name, x, reply),
            [x, y] => match name {
                CallName::Lookup => Some(self.lookup_into(pid, x, y, reply)),
                CallName::Member => Some(self.member_into(pid, x, y, reply)),
                _ => self.read_call_of_two(pid, name, x, y, reply),
            },
            [x, y, z] => match name {
                CallName::LookupElement => {
                    Some(write_value(self.lookup_element(pid, x, y, z), reply))
                }
                _ => None,
            },
            [x, y, z, default] => match name {
                CallName::LookupElement => Some(write_value(
                    self.lookup_element_or(pid, x, y, z, default),
                    reply,
                )),
                _ => None,
            },
            _ => None,
        }
    }

    /// Makes a call of one argument that changes nothing. Returns `None` if the name has no such call.
    #[inline(never)]
    fn read_call_of_one(
        &self,
        pid: u32,
        name: CallName,
        x: &Term,
        reply: &mut Reply,
    ) -> Option<Result<(), Refusal>>
        ensures { RefinesRead self.now pid name (x.now ∷ []) result reply.new }
    {
        match name {
            CallName::First => Some(write_reply(self.first(pid, x), reply)),
            CallName::FirstLookup => Some(write_reply(self.first_lookup(pid, x), reply)),
            CallName::Tab2list => Some(write_reply(self.tab2list(pid, x), reply)),
            CallName::Whereis => Some(write_reply(self.whereis(x), reply)),
            _ => None,
        }
    }

    /// Makes a call of two arguments that changes nothing. Returns `None` if the name has no such call. `read_call`
    /// tries `lookup` and `member` before. They are here too, because the contract holds for each name.
    #[inline(never)]
    fn read_call_of_two(
        &self,
        pid: u32,
        name: CallName,
        x: &Term,
        y: &Term,
        reply: &mut Reply,
    ) -> Option<Result<(), Refusal>>
        ensures { RefinesRead self.now pid name (x.now ∷ y.now ∷ []) result reply.new }
    {
        match name {
            CallName::Info => Some(write_reply(self.info(x, y), reply)),
            CallName::Lookup => Some(self.lookup_into(pid, x, y, reply)),
            CallName::Match => Some(write_reply(self.match_bindings(pid, x, y), reply)),
            CallName::MatchObject => Some(write_reply(self.match_object(pid, x, y), reply)),
            CallName::Member => Some(self.member_into(pid, x, y, reply)),
            CallName::Next => Some(write_reply(self.next(pid, x, y), reply)),
            CallName::NextLookup => Some(write_reply(self.next_lookup(pid, x, y), reply)),
            CallName::Select => Some(write_reply(self.select(pid, x, y), reply)),
            CallName::SelectCount => Some(write_reply(self.select_count(pid, x, y), reply)),
            _ => None,
        }
    }

    /// Makes a call that may change the node, and writes its reply. Refuses a call that does not exist with `Badarg`.
    fn change_call(
        &mut self,
        pid: u32,
        name: CallName,
        args: &[Term],
        reply: &mut Reply,
    ) -> Result<(), Refusal>
        requires { reads_only name args.now ≡ false }
        ensures { RefinesInto (call self.old pid name args.now) self.old result reply.new self.new }
    {
        match args {
            [] => match name {
                CallName::Receive => write_reply(self.receive(pid), reply),
                _ => Err(Refusal::Badarg),
            },
            [x] => self.change_call_of_one(pid, name, x, reply),
            [x, y] => self.change_call_of_two(pid, name, x, y, reply),
            [x, y, z] => {
                let update = Update {
                    key: y,
                    changes: z,
                    default: None,
                };
                match name {
                    CallName::GiveAway => write_reply(self.give_away(pid, x, y, z), reply),
                    CallName::UpdateCounter => self.update_counter_into(pid, x, update, reply),
                    CallName::UpdateElement => self.update_element_into(pid, x, update, reply),
                    _ => Err(Refusal::Badarg),
                }
            }
            [x, y, z, default] => {
                let update = Update {
                    key: y,
                    changes: z,
                    default: Some(default),
                };
                match name {
                    CallName::UpdateCounter => self.update_counter_into(pid, x, update, reply),
                    CallName::UpdateElement => self.update_element_into(pid, x, update, reply),
                    _ => Err(Refusal::Badarg),
                }
            }
            _ => Err(Refusal::Badarg),
        }
    }

    /// Makes a call of one argument that may change the node. Refuses a name without such a call with `Badarg`.
    #[inline(never)]
    fn change_call_of_one(
        &mut self,
        pid: u32,
        name: CallName,
        x: &Term,
        reply: &mut Reply,
    ) -> Result<(), Refusal>
        requires { reads_only name (x.now ∷ []) ≡ false }
        ensures { RefinesInto (call self.old pid name (x.now ∷ []))
            self.old result reply.new self.new }
    {
        match name {
            CallName::Delete => write_reply(self.delete_table(pid, x), reply),
            CallName::DeleteAllObjects => {
                write_true(self.alloc, self.delete_all_objects(pid, x), reply)
            }
            _ => Err(Refusal::Badarg),
        }
    }

    /// Makes a call of two arguments that may change the node. Refuses a name without such a call with `Badarg`.
    #[inline(never)]
    fn change_call_of_two(
        &mut self,
        pid: u32,
        name: CallName,
        x: &Term,
        y: &Term,
        reply: &mut Reply,
    ) -> Result<(), Refusal>
        requires { reads_only name (x.now ∷ y.now ∷ []) ≡ false }
        ensures { RefinesInto (call self.old pid name (x.now ∷ y.now ∷ []))
            self.old result reply.new self.new }
    {
        match name {
            CallName::Delete => self.delete_into(pid, x, y, reply),
            CallName::DeleteObject => write_true(self.alloc, self.delete_object(pid, x, y), reply),
            CallName::Insert => self.insert_into(pid, x, y, reply),
            CallName::InsertNew => write_truth(self.alloc, self.insert_new(pid, x, y), reply),
            CallName::MatchDelete => write_reply(self.match_delete(pid, x, y), reply),
            CallName::New => write_reply(self.new_call(pid, x, y), reply),
            CallName::SafeFixtable => write_reply(self.safe_fixtable(pid, x, y), reply),
            CallName::SelectDelete => write_reply(self.select_delete(pid, x, y), reply),
            CallName::SetOptions => write_reply(self.set_options(pid, x, y), reply),
            CallName::Take => write_reply(self.take(pid, x, y), reply),
            _ => Err(Refusal::Badarg),
        }
    }
}
