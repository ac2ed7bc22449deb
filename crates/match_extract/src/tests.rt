use crate::extract;
use cep_event::{Event, NoMemory, Value, ValueList};
use dewey_version::Version;
use shared_buffer::{Buffer, EventKey, Held, NodeKey};
use std::alloc::Global;
use std::process::Abort;
use std::test::Fail;

// A call of a buffer. Events and nodes are named by their place among those that the calls before have given.
#[derive(Clone, Copy)]
enum Call<'a> {
    Add,
    // stage, state, event, predecessor, label
    Put(u16, u16, usize, Option<usize>, &'a [u64]),
    Settle(usize),
    Hold(usize, &'a [u64]),
    Release(usize, &'a [u64]),
}

#[derive(Drop)]
struct Trial {
    alloc: Global,
    buffer: Buffer,
    events: Vec<EventKey>,
    nodes: Vec<NodeKey>,
}

fn label(alloc: Global, digits: &[u64]) -> Result<Version, NoMemory> {
    let mut version = Version::empty(alloc);
    for digit in digits {
        version = version.child(*digit)?;
    }
    Ok(version)
}

// The event of this position, whose one value is ten times its position.
fn event(alloc: Global, position: u32) -> Result<Event, NoMemory> {
    let mut values = ValueList::new(alloc);
    values.push(Value::Int(i64::from(position) * 10))?;
    Ok(Event {
        row: position,
        ts: i64::from(position),
        type_no: 0,
        values,
    })
}

fn add(trial: &mut Trial) -> Result<(), NoMemory> {
    let position = u32::try_from(trial.events.len()).unwrap_or(0);
    let event = event(trial.alloc, position)?;
    let key = trial.buffer.add_event(event, position)?;
    trial.events.push(key)?;
    Ok(())
}

fn put(
    rt: &impl Abort,
    buffer: &mut Buffer,
    stage: u16,
    state: u16,
    event: EventKey,
    pred: Option<NodeKey>,
    label: &Version,
) -> Result<NodeKey, NoMemory> {
    let same = pred.as_ref().copied();
    assert!(rt; buffer.can_put(stage, state, event, same, label));
    buffer.put(stage, state, event, pred, label)
}

fn settle(rt: &impl Abort, buffer: &mut Buffer, event: EventKey) {
    assert!(rt; buffer.is_pinned(event));
    buffer.settle(event);
}

fn hold(rt: &impl Abort, buffer: &mut Buffer, node: NodeKey, version: &Version) {
    assert!(rt; buffer.can_hold(node, version));
    buffer.hold(node, version);
}

fn release(rt: &impl Abort, buffer: &mut Buffer, node: NodeKey, version: &Version) {
    assert!(rt; buffer.has_hold(node, version));
    buffer.release(node, version);
}

fn key_at<K: Copy + Drop>(rt: &impl Abort, keys: &[K], place: usize) -> K {
    assert!(rt; place < keys.len());
    keys[place]
}

fn run(rt: &impl Abort, trial: &mut Trial, call: Call<'_>) -> Result<(), NoMemory> {
    match call {
        Call::Add => add(trial),
        Call::Put(stage, state, event, pred, digits) => {
            let label = label(trial.alloc, digits)?;
            let event = key_at(rt, &trial.events, event);
            let pred = match pred {
                Some(place) => Some(key_at(rt, &trial.nodes, place)),
                None => None,
            };
            let node = put(rt, &mut trial.buffer, stage, state, event, pred, &label)?;
            trial.nodes.push(node)?;
            Ok(())
        }
        Call::Settle(event) => {
            let event = key_at(rt, &trial.events, event);
            settle(rt, &mut trial.buffer, event);
            Ok(())
        }
        Call::Hold(node, digits) => {
            let version = label(trial.alloc, digits)?;
            let node = key_at(rt, &trial.nodes, node);
            hold(rt, &mut trial.buffer, node, &version);
            Ok(())
        }
        Call::Release(node, digits) => {
            let version = label(trial.alloc, digits)?;
            let node = key_at(rt, &trial.nodes, node);
            release(rt, &mut trial.buffer, node, &version);
            Ok(())
        }
    }
}

fn new_trial(alloc: Global) -> Trial {
    Trial {
        alloc,
        buffer: Buffer::new(alloc),
        events: Vec::new(alloc),
        nodes: Vec::new(alloc),
    }
}

fn sizes(trial: &Trial) -> [u64; 3] {
    let Held {
        events,
        nodes,
        edges,
    } = trial.buffer.held();
    [events, nodes, edges]
}

// Makes each call, and compares how much stands after it.
fn run_all(
    rt: &impl Abort,
    trial: &mut Trial,
    calls: &[(Call<'_>, [u64; 3])],
) -> Result<(), NoMemory> {
    for (call, expected) in calls {
        run(rt, trial, *call)?;
        assert_eq!(rt; sizes(trial), *expected);
    }
    Ok(())
}

// The positions on the path, whose events are checked to be those of these positions.
fn path(rt: &impl Abort, trial: &Trial, node: usize, digits: &[u64]) -> Result<Vec<u32>, NoMemory> {
    let version = label(trial.alloc, digits)?;
    let node = key_at(rt, &trial.nodes, node);
    assert!(rt; trial.buffer.leads_on(node, &version));
    let taken = extract(trial.alloc, &trial.buffer, node, &version)?;
    let mut positions = Vec::new(trial.alloc);
    for one in taken.as_slice() {
        assert!(rt; event(trial.alloc, one.position)?.same(&one.event));
        positions.push(one.position)?;
    }
    Ok(positions)
}

fn check_path(
    rt: &impl Abort,
    trial: &Trial,
    node: usize,
    digits: &[u64],
    expected: &[u32],
) -> Result<(), NoMemory> {
    let positions = path(rt, trial, node, digits)?;
    assert_eq!(rt; positions.as_slice(), expected);
    Ok(())
}

// Three events, and a node on the last that two paths reach: node 2 and node 3 are one.
const SHARED: [(Call<'static>, [u64; 3]); 10] = [
    (Call::Add, [1, 0, 0]),
    (Call::Put(0, 1, 0, None, &[0, 0]), [1, 1, 1]),
    (Call::Settle(0), [1, 1, 1]),
    (Call::Add, [2, 1, 1]),
    (Call::Put(1, 2, 1, Some(0), &[0, 0, 0]), [2, 2, 2]),
    (Call::Settle(1), [2, 2, 2]),
    (Call::Add, [3, 2, 2]),
    (Call::Put(1, 2, 2, Some(0), &[0, 0, 1]), [3, 3, 3]),
    (Call::Put(1, 2, 2, Some(1), &[0, 0, 0]), [3, 3, 4]),
    (Call::Settle(2), [3, 3, 4]),
];

#[test]
fn two_paths_share_their_events(rt: HostRuntime) -> Result<(), Fail> {
    let mut trial = new_trial(rt.alloc());
    run_all(&rt, &mut trial, &SHARED)?;
    let node = key_at(&rt, &trial.nodes, 2);
    assert_eq!(rt; node, key_at(&rt, &trial.nodes, 3));
    check_path(&rt, &trial, 2, &[0, 0, 0], &[0, 1, 2])?;
    check_path(&rt, &trial, 2, &[0, 0, 1], &[0, 2])?;
    let releases = [
        (Call::Release(1, &[0, 0, 0]), [3, 3, 4]),
        (Call::Release(2, &[0, 0, 0]), [2, 2, 2]),
        (Call::Release(0, &[0, 0]), [2, 2, 2]),
        (Call::Release(2, &[0, 0, 1]), [0, 0, 0]),
    ];
    run_all(&rt, &mut trial, &releases)?;
    Ok(())
}

// What stands while these of the four edges are held: the two of the last node lead to the first, the second by the
// middle one.
fn needed(held: [bool; 4]) -> [u64; 3] {
    let [first, middle, short, long] = held;
    let has_middle = middle || long;
    let has_first = first || short || has_middle;
    let nodes = u64::from(has_first) + u64::from(has_middle) + u64::from(short || long);
    let edges = u64::from(has_first) + u64::from(has_middle) + u64::from(short) + u64::from(long);
    [nodes, nodes, edges]
}

fn release_in_order(rt: &impl Abort, alloc: Global, order: [usize; 4]) -> Result<(), NoMemory> {
    let digits: [&[u64]; 4] = [&[0, 0], &[0, 0, 0], &[0, 0, 1], &[0, 0, 0]];
    let paths: [&[u32]; 4] = [&[0], &[0, 1], &[0, 2], &[0, 1, 2]];
    let mut trial = new_trial(alloc);
    run_all(rt, &mut trial, &SHARED)?;
    let mut held = [true; 4];
    for next in order {
        assert!(rt; next < 4);
        run(rt, &mut trial, Call::Release(next, digits[next]))?;
        held[next] = false;
        assert_eq!(rt; sizes(&trial), needed(held));
        for other in 0..4usize {
            if held[other] {
                check_path(rt, &trial, other, digits[other], paths[other])?;
            }
        }
    }
    Ok(())
}

#[test]
fn shared_prefixes_go_in_every_order(rt: HostRuntime) -> Result<(), Fail> {
    let mut orders = 0u32;
    for code in 0..256usize {
        let [a, b, c, d] = [code / 64, code / 16 % 4, code / 4 % 4, code % 4];
        if a != b && a != c && a != d && b != c && b != d && c != d {
            release_in_order(&rt, rt.alloc(), [a, b, c, d])?;
            orders = orders.wrapping_add(1);
        }
    }
    assert_eq!(rt; orders, 24);
    Ok(())
}

// A chain of this many nodes, each with a hold, or with one at its end alone.
fn chain(rt: &impl Abort, trial: &mut Trial, count: usize, all_held: bool) -> Result<(), NoMemory> {
    let digits = [0, 0];
    for place in 0..count {
        run(rt, trial, Call::Add)?;
        let pred = place.checked_sub(1);
        run(rt, trial, Call::Put(0, 1, place, pred, &digits))?;
        run(rt, trial, Call::Settle(place))?;
        if let Some(pred) = pred {
            if !all_held {
                run(rt, trial, Call::Release(pred, &digits))?;
            }
        }
    }
    Ok(())
}

const LONG: usize = 10_000;

#[test]
fn a_long_chain_goes_with_its_last_hold(rt: HostRuntime) -> Result<(), Fail> {
    let mut trial = new_trial(rt.alloc());
    chain(&rt, &mut trial, LONG, false)?;
    assert_eq!(rt; sizes(&trial), [LONG as u64; 3]);
    let positions = path(&rt, &trial, LONG - 1, &[0, 0])?;
    assert_eq!(rt; positions.len(), LONG);
    run(&rt, &mut trial, Call::Release(LONG - 1, &[0, 0]))?;
    assert_eq!(rt; sizes(&trial), [0; 3]);
    Ok(())
}

#[test]
fn a_long_chain_goes_from_its_end(rt: HostRuntime) -> Result<(), Fail> {
    let mut trial = new_trial(rt.alloc());
    chain(&rt, &mut trial, LONG, true)?;
    for gone in 0..LONG {
        let left = LONG - gone;
        assert_eq!(rt; sizes(&trial), [left as u64; 3]);
        run(&rt, &mut trial, Call::Release(left - 1, &[0, 0]))?;
    }
    assert_eq!(rt; sizes(&trial), [0; 3]);
    Ok(())
}

const MANY: usize = 500;

#[test]
fn a_node_has_many_edges(rt: HostRuntime) -> Result<(), Fail> {
    let mut trial = new_trial(rt.alloc());
    run(&rt, &mut trial, Call::Add)?;
    run(&rt, &mut trial, Call::Add)?;
    for place in 0..MANY {
        let digit = place as u64;
        run(&rt, &mut trial, Call::Put(0, 1, 0, None, &[0, digit]))?;
        run(
            &rt,
            &mut trial,
            Call::Put(1, 2, 1, Some(2 * place), &[0, digit, 7]),
        )?;
        run(&rt, &mut trial, Call::Release(2 * place, &[0, digit]))?;
    }
    assert_eq!(rt; sizes(&trial), [2, 2, 2 * MANY as u64]);
    for place in 0..MANY {
        let other = (place * 7) % MANY;
        let digits = [0, other as u64, 7];
        check_path(&rt, &trial, 2 * other + 1, &digits, &[0, 1])?;
        run(&rt, &mut trial, Call::Hold(2 * other + 1, &digits))?;
        run(&rt, &mut trial, Call::Release(2 * other + 1, &digits))?;
        check_path(&rt, &trial, 2 * other + 1, &digits, &[0, 1])?;
        run(&rt, &mut trial, Call::Release(2 * other + 1, &digits))?;
    }
    assert_eq!(rt; sizes(&trial), [2, 0, 0]);
    Ok(())
}

#[test]
fn a_pin_keeps_an_event(rt: HostRuntime) -> Result<(), Fail> {
    let mut trial = new_trial(rt.alloc());
    let calls = [
        (Call::Add, [1, 0, 0]),
        (Call::Put(0, 1, 0, None, &[0]), [1, 1, 1]),
        (Call::Release(0, &[0]), [1, 0, 0]),
        (Call::Add, [2, 0, 0]),
        (Call::Settle(0), [1, 0, 0]),
        (Call::Put(0, 1, 1, None, &[0]), [1, 1, 1]),
        (Call::Hold(1, &[0, 3]), [1, 1, 1]),
        (Call::Settle(1), [1, 1, 1]),
        (Call::Release(1, &[0, 4]), [1, 1, 1]),
        (Call::Release(1, &[0]), [0, 0, 0]),
    ];
    run_all(&rt, &mut trial, &calls)?;
    let event = key_at(&rt, &trial.events, 0);
    assert!(rt; !trial.buffer.has_event(event));
    Ok(())
}

// Whether each of these puts can be made: of stage, state, event, predecessor and label.
fn check_puts(
    rt: &impl Abort,
    trial: &Trial,
    puts: &[((u16, u16, usize), Option<usize>, &[u64], bool)],
) -> Result<(), NoMemory> {
    for ((stage, state, event), pred, digits, expected) in puts {
        let label = label(trial.alloc, digits)?;
        let event = key_at(rt, &trial.events, *event);
        let pred = match pred {
            Some(place) => Some(key_at(rt, &trial.nodes, *place)),
            None => None,
        };
        let can = trial.buffer.can_put(*stage, *state, event, pred, &label);
        assert_eq!(rt; can, *expected);
    }
    Ok(())
}

#[test]
fn a_put_has_conditions(rt: HostRuntime) -> Result<(), Fail> {
    let mut trial = new_trial(rt.alloc());
    let calls = [
        (Call::Add, [1, 0, 0]),
        (Call::Add, [2, 0, 0]),
        (Call::Put(0, 1, 0, None, &[0, 1]), [2, 1, 1]),
        (Call::Put(1, 2, 1, Some(0), &[0, 1, 2]), [2, 2, 2]),
    ];
    run_all(&rt, &mut trial, &calls)?;
    // a label that goes on from one of the node, one from which one of the node goes on, another stage, no edge that
    // leads there, a predecessor that does not come before, and two that can be made
    let puts: [((u16, u16, usize), Option<usize>, &[u64], bool); 7] = [
        ((0, 1, 0), None, &[0, 1, 2], false),
        ((1, 2, 1), None, &[0, 1], false),
        ((2, 2, 1), None, &[0, 2], false),
        ((1, 2, 1), Some(0), &[0, 2], false),
        ((0, 1, 0), Some(1), &[0, 2], false),
        ((0, 1, 0), None, &[0, 2], true),
        ((1, 2, 1), Some(0), &[0, 1, 3], true),
    ];
    check_puts(&rt, &trial, &puts)?;
    Ok(())
}
