//! Tests of many objects in a table: one by one, in one call, and in one reply.
// A row is the templates of a call and of its wanted reply. In a template a number replaces each N.
use super::*;

/// Templates of calls and of their replies. Each call is made for all numbers before the next call.
static OBJECTS: [(&str, &str); 6] = [
    ("insert(t,{N,x})", "true"),
    ("lookup(t,N)", "[{N,x}]"),
    ("insert_new(t,{N,y})", "false"),
    ("member(t,N)", "true"),
    ("take(t,N)", "[{N,x}]"),
    ("member(t,N)", "false"),
];

/// Makes each call of the rows for each number, and returns whether all have their replies.
fn calls_have_replies_for_each(
    alloc: Global,
    node: &mut Node<Fnv>,
    rows: &[(&str, &str)],
) -> Result<bool, AllocError> {
    for (call, wanted) in rows {
        if first_wrong_number(alloc, node, *call, *wanted)?.is_some() {
            return Ok(false);
        }
    }
    Ok(true)
}

/// Returns whether a table stores, finds and deletes the object of each number.
pub fn stores_many_objects(alloc: Global, node: &mut Node<Fnv>) -> Result<bool, AllocError> {
    Ok(starts_with_table(alloc, node)? && calls_have_replies_for_each(alloc, node, &OBJECTS)?)
}

#[test]
fn a_table_has_many_objects(rt: HostRuntime) {
    assert!(rt; new_node_passes(rt.alloc(), Check::Objects) == Ok(true));
}

/// A template of a long text: `start`, then the template `middle` for each number in turn, then `end`. A `middle` ends
/// with a comma; the module `text`, which reads the text, allows a comma before the closing bracket.
#[derive(Clone, Copy)]
struct LongTemplate<'a> {
    start: &'a str,
    middle: &'a str,
    end: &'a str,
}

/// Appends the long text of a template.
fn push_long_text(alloc: Global, text: &mut String, long: LongTemplate) -> Result<(), AllocError> {
    text.push_str(long.start)?;
    for number in 0..COUNT {
        push_template(alloc, text, long.middle, number)?;
    }
    text.push_str(long.end)
}

/// Builds the long text of a template.
fn long_text(alloc: Global, long: LongTemplate) -> Result<String, AllocError> {
    let mut text = String::new(alloc);
    keep_if_ok(push_long_text(alloc, &mut text, long), text)
}

/// What a test checks of a new node, with two long texts.
#[derive(Clone, Copy)]
enum TextCheck {
    /// One call, the first text, inserts many objects; `tab2list` then has the second text.
    Inserts,
    /// The texts are the replies of `match` and of `select`.
    Finds,
    /// One call of `update_counter`, the first text, has the second text as its reply.
    Counts,
}

/// Makes a check with these two texts, and returns whether the node passes it.
fn node_passes_with_texts(
    alloc: Global,
    node: &mut Node<Fnv>,
    check: TextCheck,
    first: &str,
    second: &str,
) -> Result<bool, AllocError> {
    match check {
        TextCheck::Inserts => inserts_and_lists(alloc, node, first, second),
        TextCheck::Finds => finds_many_objects(alloc, node, first, second),
        TextCheck::Counts => call_on_set_has_reply(alloc, node, first, second),
    }
}

/// Creates a node, and returns whether it passes a check with these two texts.
fn new_node_passes_with_texts(
    alloc: Global,
    check: TextCheck,
    first: &str,
    second: &str,
) -> Result<bool, AllocError> {
    let mut node = Node::new(alloc, Limits::usual(), Fnv);
    let passed = node_passes_with_texts(alloc, &mut node, check, first, second);
    drop(node);
    passed
}

/// Builds the second text, and returns whether a new node passes a check with both texts.
fn passes_with_second_text(
    alloc: Global,
    check: TextCheck,
    first: &str,
    second: LongTemplate,
) -> Result<bool, AllocError> {
    let second = long_text(alloc, second)?;
    let passed = new_node_passes_with_texts(alloc, check, first, second.as_str());
    drop(second);
    passed
}

/// Builds both texts, and returns whether a new node passes a check with them.
fn passes_with_long_texts(
    alloc: Global,
    check: TextCheck,
    first: LongTemplate,
    second: LongTemplate,
) -> Result<bool, AllocError> {
    let first = long_text(alloc, first)?;
    let passed = passes_with_second_text(alloc, check, first.as_str(), second);
    drop(first);
    passed
}

/// Returns whether the call `insert` inserts objects, `tab2list` then replies `listed`, and they can be deleted.
fn inserts_and_lists(
    alloc: Global,
    node: &mut Node<Fnv>,
    insert: &str,
    listed: &str,
) -> Result<bool, AllocError> {
    Ok(
        starts_with_table(alloc, node)?
            && call_has_reply(alloc, node, insert, "true")?
            && call_has_reply(alloc, node, "tab2list(t)", listed)?
            && call_has_reply(alloc, node, "delete_all_objects(t)", "true")?
            && call_has_reply(alloc, node, "tab2list(t)", "[]")?,
    )
}

/// Returns whether one call inserts an object for each number. The call begins with `start`; `object` is a template.
fn inserts_at_once(alloc: Global, start: &str, object: &str) -> Result<bool, AllocError> {
    let insert = LongTemplate {
        start,
        middle: object,
        end: "])",
    };
    let listed = LongTemplate {
        start: "any order: [",
        middle: object,
        end: "]",
    };
    passes_with_long_texts(alloc, TextCheck::Inserts, insert, listed)
}

/// Returns whether one call inserts many objects under different keys, and another call many objects under one key.
fn inserts_many_keys_and_one(alloc: Global, start: &str) -> Result<bool, AllocError> {
    Ok(inserts_at_once(alloc, start, "{N,x},")? && inserts_at_once(alloc, start, "{x,N},")?)
}

#[test]
fn many_objects_are_inserted_at_once(rt: HostRuntime) {
    assert!(rt; inserts_many_keys_and_one(rt.alloc(), "insert(t,[") == Ok(true));
    assert!(rt; inserts_many_keys_and_one(rt.alloc(), "insert_new(t,[") == Ok(true));
}

/// Inserts `COUNT` objects. Returns whether a pattern finds `bindings`, a match specification finds `results`, and
/// `select_delete` deletes 2100 objects, which is `COUNT`.
fn finds_many_objects(
    alloc: Global,
    node: &mut Node<Fnv>,
    bindings: &str,
    results: &str,
) -> Result<bool, AllocError> {
    Ok(
        starts_with_table(alloc, node)?
            && first_wrong_number(alloc, node, "insert(t,{N,x})", "true")?.is_none()
            && call_has_reply(alloc, node, "match(t,{'$1',x})", bindings)?
            && call_has_reply(alloc, node, "select(t,[{{'$1',_},[],['$1']}])", results)?
            && call_has_reply(alloc, node, "select_delete(t,[{_,[],[true]}])", "2100")?,
    )
}

/// The reply of `match` with the keys of `COUNT` objects: a list of bindings for each object.
const BINDINGS: LongTemplate<'static> = LongTemplate {
    start: "any order: [",
    middle: "[N],",
    end: "]",
};

/// The reply of `select` with the keys of `COUNT` objects.
const RESULTS: LongTemplate<'static> = LongTemplate {
    start: "any order: [",
    middle: "N,",
    end: "]",
};

#[test]
fn many_objects_are_found(rt: HostRuntime) {
    assert!(rt;
        passes_with_long_texts(rt.alloc(), TextCheck::Finds, BINDINGS, RESULTS) == Ok(true)
    );
}

/// Makes a new table s, a set, and returns whether a call on it has the wanted reply.
fn call_on_set_has_reply(
    alloc: Global,
    node: &mut Node<Fnv>,
    call: &str,
    wanted: &str,
) -> Result<bool, AllocError> {
    Ok(
        starts_with_table(alloc, node)?
            && call_has_reply(alloc, node, "new(s,[named_table])", "s")?
            && call_has_reply(alloc, node, call, wanted)?,
    )
}

/// One call that adds 1 to a counter `COUNT` times. The counter starts at -1, so that its value after the first
/// addition is 0.
const INCREMENTS: LongTemplate<'static> = LongTemplate {
    start: "update_counter(s,c,[",
    middle: "{2,1},",
    end: "],{c,-1})",
};

/// The reply to `INCREMENTS`: the value of the counter after each addition.
const VALUES: LongTemplate<'static> = LongTemplate {
    start: "[",
    middle: "N,",
    end: "]",
};

#[test]
fn one_call_adds_to_a_counter_many_times(rt: HostRuntime) {
    assert!(rt;
        passes_with_long_texts(rt.alloc(), TextCheck::Counts, INCREMENTS, VALUES) == Ok(true)
    );
}
