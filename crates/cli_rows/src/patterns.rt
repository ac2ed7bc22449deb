ghost use Rattle.std.specs.Prelude.{◌<◌};

use crate::statuses::{files_of, words_of};
use cep_cli::{NoGauge, cep, number};
use cep_event::{ByteList, CallList, NoMemory};
use cep_outside::{MemorySink, MemorySource};
use std::test::Fail;

pub struct Row {
    pub name: &'static str,
    pub file: &'static [u8],
    pub input: &'static [u8],
    pub output: &'static [u8],
}

const ROWS: [Row; 34] = [
    Row {
        name: "relaxed",
        file: b"event A(); event B(); event C(); event D(); pattern begin(\"a\").of(A).followedBy(\"b\").of(B);",
        input: b"A,1\nC,2\nB,3\nB,4\n",
        output: b"match,a=1,b=3\n",
    },
    Row {
        name: "any",
        file: b"event A(); event B(); event C(); event D(); pattern begin(\"a\").of(A).followedByAny(\"b\").of(B);",
        input: b"A,1\nC,2\nB,3\nB,4\n",
        output: b"match,a=1,b=3\nmatch,a=1,b=4\n",
    },
    Row {
        name: "a relaxed loop",
        file: b"event A(); event B(); event C(); event D(); pattern begin(\"c\").of(C).followedBy(\"m\").of(A).oneOrMore().followedBy(\"b\").of(B);",
        input: b"C,1\nD,2\nA,3\nA,4\nA,5\nD,6\nA,7\nB,8\n",
        output: b"match,c=1,m=3 4 5 7,b=8\nmatch,c=1,m=3 4 5,b=8\nmatch,c=1,m=3 4,b=8\nmatch,c=1,m=3,b=8\n",
    },
    Row {
        name: "a strict loop",
        file: b"event A(); event B(); event C(); event D(); pattern begin(\"c\").of(C).followedBy(\"m\").of(A).oneOrMore().consecutive().followedBy(\"b\").of(B);",
        input: b"C,1\nD,2\nA,3\nA,4\nA,5\nD,6\nA,7\nB,8\n",
        output: b"match,c=1,m=3 4 5,b=8\nmatch,c=1,m=3 4,b=8\nmatch,c=1,m=3,b=8\n",
    },
    Row {
        name: "any combination",
        file: b"event A(); event B(); event C(); event D(); pattern begin(\"c\").of(C).followedBy(\"m\").of(A).oneOrMore().allowCombinations().followedBy(\"b\").of(B);",
        input: b"C,1\nD,2\nA,3\nA,4\nA,5\nD,6\nA,7\nB,8\n",
        output: b"match,c=1,m=3 4 5 7,b=8\nmatch,c=1,m=3 4 5,b=8\nmatch,c=1,m=3 4 7,b=8\nmatch,c=1,m=3 4,b=8\nmatch,c=1,m=3 5 7,b=8\nmatch,c=1,m=3 5,b=8\nmatch,c=1,m=3 7,b=8\nmatch,c=1,m=3,b=8\n",
    },
    Row {
        name: "an optional stage",
        file: b"event A(); event B(); event C(); event D(); pattern begin(\"a\").of(A).followedBy(\"b\").of(B).optional().followedBy(\"c\").of(C);",
        input: b"A,1\nB,2\nC,3\n",
        output: b"match,a=1,b=2,c=3\nmatch,a=1,c=3\n",
    },
    Row {
        name: "not next, met",
        file: b"event A(); event B(); event C(); event D(); pattern begin(\"a\").of(A).notNext(\"x\").of(B).followedBy(\"b\").of(B);",
        input: b"A,1\nB,2\nB,3\n",
        output: b"",
    },
    Row {
        name: "not next, kept",
        file: b"event A(); event B(); event C(); event D(); pattern begin(\"a\").of(A).notNext(\"x\").of(B).followedBy(\"b\").of(B);",
        input: b"A,1\nC,2\nB,3\n",
        output: b"match,a=1,b=3\n",
    },
    Row {
        name: "not followed by, at the taken event",
        file: b"event A(); event B(); event C(); event D(); pattern begin(\"a\").of(A).notFollowedBy(\"x\").of(B).followedBy(\"b\").of(B);",
        input: b"A,1\nB,2\n",
        output: b"match,a=1,b=2\n",
    },
    Row {
        name: "not followed by, met",
        file: b"event A(); event B(); event C(); event D(); pattern begin(\"a\").of(A).notFollowedBy(\"x\").of(C).followedBy(\"b\").of(B);",
        input: b"A,1\nC,2\nB,3\n",
        output: b"",
    },
    Row {
        name: "until",
        file: b"event A(); event B(v int); event C(); pattern begin(\"a\").of(A).followedBy(\"b\").of(B).oneOrMore().until(v == 0).followedBy(\"c\").of(C);",
        input: b"A,1\nB,2,5\nB,3,0\nB,4,7\nC,5\n",
        output: b"match,a=1,b=2,c=5\n",
    },
    Row {
        name: "the event that ends a loop",
        file: b"event A(); event B(v int); event C(); pattern begin(\"a\").of(A).followedBy(\"b\").of(B).oneOrMore().until(v == 0).followedBy(\"c\").of(B).where(v == 0);",
        input: b"A,1\nB,2,5\nB,3,0\n",
        output: b"match,a=1,b=2,c=3\n",
    },
    Row {
        name: "at the limit",
        file: b"event A(); event B(); event C(); event D(); pattern begin(\"a\").of(A).followedBy(\"b\").of(B).within(10);",
        input: b"A,0\nB,10\n",
        output: b"timeout,a=1\n",
    },
    Row {
        name: "below the limit",
        file: b"event A(); event B(); event C(); event D(); pattern begin(\"a\").of(A).followedBy(\"b\").of(B).within(10);",
        input: b"A,0\nB,9\n",
        output: b"match,a=1,b=2\n",
    },
    Row {
        name: "timeouts of a loop",
        file: b"event A(); event B(); event C(); event D(); pattern begin(\"a\").of(A).followedBy(\"b\").of(B).oneOrMore().followedBy(\"c\").of(C).within(10);",
        input: b"A,0\nB,1\nB,2\nA,3\nB,4\nC,10\n",
        output: b"timeout,a=1,b=2\ntimeout,a=1,b=2 3\ntimeout,a=1,b=2 3 5\nmatch,a=4,b=5,c=6\ntimeout,a=4,b=5\n",
    },
    Row {
        name: "no skip",
        file: b"event A(); event B(); event C(); event D(); pattern begin(\"b\").of(B).oneOrMore().next(\"c\").of(C);",
        input: b"B,1\nB,2\nB,3\nC,4\n",
        output: b"match,b=1 2 3,c=4\nmatch,b=2 3,c=4\nmatch,b=3,c=4\n",
    },
    Row {
        name: "skip past last",
        file: b"event A(); event B(); event C(); event D(); pattern begin(\"b\").of(B).oneOrMore().next(\"c\").of(C); skip past_last;",
        input: b"B,1\nB,2\nB,3\nC,4\n",
        output: b"match,b=1 2 3,c=4\n",
    },
    Row {
        name: "skip to last",
        file: b"event A(); event B(); event C(); event D(); pattern begin(\"b\").of(B).oneOrMore().next(\"c\").of(C); skip to_last(\"b\");",
        input: b"B,1\nB,2\nB,3\nC,4\n",
        output: b"match,b=1 2 3,c=4\nmatch,b=3,c=4\n",
    },
    Row {
        name: "skip to next",
        file: b"event A(); event B(); event C(); event D(); pattern begin(\"a\").of(A).followedBy(\"b\").of(B).oneOrMore(); skip to_next;",
        input: b"A,1\nB,2\nB,3\nB,4\n",
        output: b"match,a=1,b=2\n",
    },
    Row {
        name: "marks",
        file: b"event A(); event B(); pattern begin(\"a\").of(A).next(\"b\").of(B);",
        input: b"@,5\nA,5\n@,3\nA,6\nB,6\n",
        output: b"late,2\nmatch,a=4,b=5\n",
    },
    Row {
        name: "a sum outside 64 bits",
        file: b"event B(price int); event C(); pattern begin(\"b\").of(B).times(2).next(\"c\").of(C).where(sum(\"b\".price) < 100);",
        input: b"B,1,9223372036854775807\nB,2,1\nC,3\n",
        output: b"",
    },
    Row {
        name: "no sum outside 64 bits",
        file: b"event B(price int); event C(); pattern begin(\"b\").of(B).times(2).next(\"c\").of(C).where(!(sum(\"b\".price) < 100));",
        input: b"B,1,9223372036854775807\nB,2,1\nC,3\n",
        output: b"match,b=1 2,c=3\n",
    },
    Row {
        name: "an optional first stage",
        file: b"event A(); event B(); event C(); event D(); pattern begin(\"a\").of(A).optional().next(\"b\").of(B);",
        input: b"A,1\nB,2\n",
        output: b"match,a=1,b=2\nmatch,b=2\n",
    },
    Row {
        name: "twice",
        file: b"event A(); event B(); event C(); event D(); pattern begin(\"a\").of(A).times(2);",
        input: b"A,1\nA,2\nA,3\n",
        output: b"match,a=1 2\nmatch,a=2 3\n",
    },
    Row {
        name: "twice in any way",
        file: b"event A(); event B(); event C(); event D(); pattern begin(\"a\").of(A).times(2).allowCombinations();",
        input: b"A,1\nA,2\nA,3\n",
        output: b"match,a=1 2\nmatch,a=1 3\nmatch,a=2 3\n",
    },
    Row {
        name: "the least number",
        file: b"event A(v int); pattern begin(\"a\").of(A).where(v % -1 == 0 && !(v / -1 == v));",
        input: b"A,1,-9223372036854775808\n",
        output: b"match,a=1\n",
    },
    Row {
        name: "a kept minimum",
        file: b"event B(p int); event C(); pattern begin(\"b\").of(B).oneOrMore().allowCombinations().next(\"c\").of(C).where(min(\"b\".p) == 1);",
        input: b"B,1,5\nB,2,1\nB,3,7\nC,4\n",
        output: b"match,b=1 2 3,c=4\nmatch,b=2 3,c=4\n",
    },
    Row {
        name: "a kept sum, first and last",
        file: b"event B(p int); event C(); pattern begin(\"b\").of(B).oneOrMore().allowCombinations().followedBy(\"c\").of(C).where(sum(\"b\".p) == 8 && first(\"b\").p < last(\"b\").p);",
        input: b"B,1,5\nB,2,1\nB,3,7\nC,4\n",
        output: b"match,b=2 3,c=4\n",
    },
    Row {
        name: "a kept maximum and a count",
        file: b"event B(p int); event C(); pattern begin(\"b\").of(B).oneOrMore().allowCombinations().followedBy(\"c\").of(C).where(max(\"b\".p) == 5 && count(\"b\") == 2);",
        input: b"B,1,5\nB,2,1\nB,3,7\nC,4\n",
        output: b"match,b=1 2,c=4\n",
    },
    Row {
        name: "kept texts",
        file: b"event T(s text); pattern begin(\"a\").of(T).oneOrMore().allowCombinations().next(\"b\").of(T).where(s == first(\"a\").s && last(\"a\").s == \"y\");",
        input: b"T,1,x\nT,2,y\nT,3,x\n",
        output: b"match,a=1 2,b=3\n",
    },
    Row {
        name: "a loop that asks of itself",
        file: b"event A(v int); event E(); pattern begin(\"a\").of(A).where(count(\"a\") == 0 || v > max(\"a\".v)).oneOrMore().next(\"e\").of(E);",
        input: b"A,1,5\nA,2,3\nA,3,6\nE,4\n",
        output: b"match,a=1 3,e=4\nmatch,a=2 3,e=4\nmatch,a=3,e=4\n",
    },
    Row {
        name: "quoted fields and carriage returns",
        file: b"event T(s text, p int); pattern begin(\"a\").of(T).next(\"b\").of(T).where(s == last(\"a\").s && p > max(\"a\".p));",
        input: b"T,1,\"x,y\",5\r\nT,2,\"x,y\",6\r\nT,3,z,9\r\n",
        output: b"match,a=1,b=2\n",
    },
    Row {
        name: "values that a match prints",
        file: b"event Trade(sym text, price int); pattern begin(\"a\").of(Trade).where(price > 10).followedBy(\"b\").of(Trade).where(sym == last(\"a\").sym && price > last(\"a\").price).oneOrMore().followedBy(\"c\").of(Trade).where(sym == last(\"a\").sym && price < last(\"a\").price).within(60000); skip past_last; select last(\"a\").sym, count(\"b\"), max(\"b\".price), last(\"c\").price;",
        input: b"Trade,1000,IBM,20\nTrade,2000,HP,5\nTrade,3000,IBM,25\nTrade,4000,IBM,30\nTrade,5000,IBM,15\n",
        output: b"match,IBM,2,30,15\n",
    },
    Row {
        name: "a mark above the times",
        file: b"event A(v int); pattern begin(\"a\").of(A);",
        input: b"A,1,5\n@,1\n",
        output: b"match,a=1\n",
    },
];

pub fn is_met(rt: &HostRuntime, row: &Row, piece: usize) -> Result<bool, NoMemory>
    requires { 0 < piece }
{
    let alloc = rt.alloc();
    let words = words_of(alloc, &["run", "p"])?;
    let mut files = files_of(alloc, row.file)?;
    let bytes = ByteList::from_slice(alloc, row.input)?;
    let mut input = MemorySource::new(bytes, piece, CallList::new(alloc));
    let mut output = MemorySink::new(alloc, 999, 4096, CallList::new(alloc))?;
    let mut notes = MemorySink::new(alloc, 100, 100, CallList::new(alloc))?;
    let status = cep(
        alloc,
        &words,
        &mut files,
        &mut input,
        &mut output,
        &mut notes,
        &mut NoGauge,
    );
    Ok(number(&status) == 0 && output.taken() == row.output && notes.taken().is_empty())
}

/// Patterns over rows, with all that they print.
#[test]
fn patterns_print_their_matches(rt: HostRuntime) -> Result<(), Fail> {
    for row in &ROWS {
        for piece in [1usize, 4096] {
            let name = row.name;
            assert!(rt; is_met(&rt, row, piece)?, "{name}");
        }
    }
    Ok(())
}
