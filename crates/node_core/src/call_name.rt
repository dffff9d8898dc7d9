//! The names of the calls of `ets`, and `receive`, as an enum, and how its values are read from texts.
ghost use Rattle.std.specs.Prelude.{◌≡◌};
ghost use Rattle.node_core.specs.CallName.{call_name};

/// The name of a call of `ets`, or `receive`. A call is a name with a number of arguments: `Delete` with one deletes a
/// table, and with two the objects of a key.
#[derive(Clone, Copy, Debug, PartialEq, Eq)]
pub enum CallName {
    Delete,
    DeleteAllObjects,
    DeleteObject,
    First,
    FirstLookup,
    GiveAway,
    Info,
    Insert,
    InsertNew,
    Lookup,
    LookupElement,
    Match,
    MatchDelete,
    MatchObject,
    Member,
    New,
    Next,
    NextLookup,
    /// `receive`, which is not a function of `ets`: a process empties its mailbox.
    Receive,
    SafeFixtable,
    Select,
    SelectCount,
    SelectDelete,
    /// `setopts`.
    SetOptions,
    Tab2list,
    Take,
    UpdateCounter,
    UpdateElement,
    Whereis,
}

impl CallName {
    /// Reads the name of a call, such as `lookup_element`. Returns `None` if no call has this name.
    ///
    /// The name is compared only with names of its length. The last group has the names whose length no other name has.
    pub fn read(name: &str) -> Option<CallName>
        ensures { result ≡ call_name name.now }
    {
        match name.len() {
            4 => match name {
                "info" => Some(CallName::Info),
                "next" => Some(CallName::Next),
                "take" => Some(CallName::Take),
                _ => None,
            },
            5 => match name {
                "first" => Some(CallName::First),
                "match" => Some(CallName::Match),
                _ => None,
            },
            6 => match name {
                "delete" => Some(CallName::Delete),
                "insert" => Some(CallName::Insert),
                "lookup" => Some(CallName::Lookup),
                "member" => Some(CallName::Member),
                "select" => Some(CallName::Select),
                _ => None,
            },
            7 => match name {
                "receive" => Some(CallName::Receive),
                "setopts" => Some(CallName::SetOptions),
                "whereis" => Some(CallName::Whereis),
                _ => None,
            },
            12 => match name {
                "first_lookup" => Some(CallName::FirstLookup),
                "match_delete" => Some(CallName::MatchDelete),
                "match_object" => Some(CallName::MatchObject),
                "select_count" => Some(CallName::SelectCount),
                _ => None,
            },
            13 => match name {
                "delete_object" => Some(CallName::DeleteObject),
                "safe_fixtable" => Some(CallName::SafeFixtable),
                "select_delete" => Some(CallName::SelectDelete),
                _ => None,
            },
            14 => match name {
                "lookup_element" => Some(CallName::LookupElement),
                "update_counter" => Some(CallName::UpdateCounter),
                "update_element" => Some(CallName::UpdateElement),
                _ => None,
            },
            _ => match name {
                "new" => Some(CallName::New),
                "tab2list" => Some(CallName::Tab2list),
                "give_away" => Some(CallName::GiveAway),
                "insert_new" => Some(CallName::InsertNew),
                "next_lookup" => Some(CallName::NextLookup),
                "delete_all_objects" => Some(CallName::DeleteAllObjects),
                _ => None,
            },
        }
    }
}
