use crate::draw::{drawn, step};
use crate::{Generated, summary};
use cep_event::{ByteList, EventType, EventTypeList, Field, FieldList, Kind, NoMemory, Text};
use cep_plan::{NegationList, Plan, Skip, StageList};
use std::alloc::Global;
use std::test::Fail;

// A type: its name, and its fields with `i` for an Int and `t` for a Text.
fn declared(alloc: Global, shape: &(&str, &str)) -> Result<EventType, NoMemory> {
    let mut fields = FieldList::new(alloc);
    for letter in shape.1.bytes() {
        let kind = if letter == b'i' {
            Kind::Int
        } else {
            Kind::Text
        };
        fields.push(Field {
            name: Text::from_str(alloc, "f")?,
            number: 0,
            kind,
        })?;
    }
    Ok(EventType {
        name: Text::from_str(alloc, shape.0)?,
        fields,
    })
}

fn plan(alloc: Global, shapes: &[(&str, &str)]) -> Result<Plan, NoMemory> {
    let mut types = EventTypeList::new(alloc);
    for shape in shapes {
        types.push(declared(alloc, shape)?)?;
    }
    Ok(Plan {
        types,
        stages: StageList::new(alloc),
        negations: NegationList::new(alloc),
        within: None,
        within_gap: None,
        by: None,
        skip: Skip::No,
        select: None,
    })
}

// The lines, each with a bar, and a point where they end.
fn told(
    alloc: Global,
    shapes: &[(&str, &str)],
    seed: u64,
    count: u32,
) -> Result<ByteList, NoMemory> {
    let plan = plan(alloc, shapes)?;
    let mut lines = Generated::new(alloc, &plan, seed, count);
    let mut text = ByteList::new(alloc);
    for _ in 0..9 {
        match lines.next_line()? {
            Some(line) => {
                text.extend(line.as_slice())?;
                text.push(b'|')?;
            }
            None => text.push(b'.')?,
        }
    }
    Ok(text)
}

const NONE: [(&str, &str); 0] = [];

const BARE: [(&str, &str); 1] = [("A", "")];

const TWO: [(&str, &str); 2] = [("A", ""), ("B", "")];

const FOUR: [(&str, &str); 4] = [("A", "i"), ("Trade", "ti"), ("Tick", ""), ("Long", "titi")];

// Types, a seed, how many lines, and these as another program gives them.
const LINES: [(&[(&str, &str)], u64, u32, &str); 10] = [
    (&NONE, 0, 2, "@,1|@,2|......."),
    (&NONE, 7, 0, "........."),
    (&BARE, 7, 1, "A,1|........"),
    (&TWO, 0, 6, "B,1|A,2|B,3|A,4|B,5|B,6|..."),
    (&TWO, 7, 6, "A,1|B,2|B,3|B,4|B,5|B,6|..."),
    (&TWO, u64::MAX, 5, "A,1|B,2|B,3|A,4|A,5|...."),
    (
        &FOUR,
        0,
        6,
        "Long,1,k0,937,k4,125|Long,2,k0,975,k0,139|Long,3,k2,382,k5,980|Tick,4|Trade,5,k2,931|Long,6,k6,69,k7,138|...",
    ),
    (
        &FOUR,
        7,
        6,
        "Tick,1|Long,2,k1,673,k1,219|A,3,764|Long,4,k6,195,k3,632|A,5,949|Tick,6|...",
    ),
    (
        &FOUR,
        u64::MAX,
        3,
        "A,1,343|Trade,2,k2,864|Long,3,k5,47,k0,532|......",
    ),
    (
        &FOUR,
        7,
        u32::MAX,
        "Tick,1|Long,2,k1,673,k1,219|A,3,764|Long,4,k6,195,k3,632|A,5,949|Tick,6|Trade,7,k3,796|Long,8,k0,793,k6,98|Trade,9,k0,40|",
    ),
];

#[test]
fn lines_are_those_of_another_program(rt: HostRuntime) -> Result<(), Fail> {
    for (shapes, seed, count, want) in LINES.iter() {
        let text = told(rt.alloc(), shapes, *seed, *count)?;
        assert!(rt; text.as_slice() == want.as_bytes(), "{want}");
    }
    Ok(())
}

// A seed, and its first draws.
const DRAWS: [(u64, [u64; 5]); 3] = [
    (0, [167951807, 218396424, 1299921937, 861605236, 823830125]),
    (
        7,
        [1059165278, 2052263231, 1946856753, 585718673, 572045545],
    ),
    (
        u64::MAX,
        [1574552488, 1490332343, 1207502677, 901017602, 2086932864],
    ),
];

#[test]
fn draws_are_those_of_another_program(rt: HostRuntime) -> Result<(), Fail> {
    for (seed, want) in DRAWS {
        let mut state = seed;
        for number in want {
            assert_eq!(rt; drawn(state), number);
            state = step(state);
        }
    }
    Ok(())
}

#[test]
fn a_summary_has_five_lines(rt: HostRuntime) -> Result<(), Fail> {
    let text = summary(rt.alloc(), 100000, 0, 99998, u64::MAX, 2)?;
    let want =
        "rows 100000\nlate 0\nmatches 99998\ntimeouts 18446744073709551615\ngreatest held 2\n";
    assert!(rt; text.as_slice() == want.as_bytes());
    Ok(())
}
