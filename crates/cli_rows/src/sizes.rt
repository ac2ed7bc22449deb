//! Random patterns over random rows, with how much is held after each tick as `checks/sizes.py --rows 100` counts it by brute force from the definitions.
use crate::statuses::{Case, gauged_over};
use cep_cli::MemoryGauge;
use cep_event::{ByteList, CallList, NoMemory};
use cep_outside::{MemorySink, MemorySource};
use shared_buffer::Held;
use std::test::Fail;

/// The sizes are the numbers of events, nodes and edges after the first tick, then those after the second, and so on.
struct Row {
    lag: Option<u64>,
    file: &'static [u8],
    input: &'static [u8],
    sizes: &'static [u64],
}

const FIRST: [Row; 10] = [
    Row {
        lag: None,
        file: b"event A(v int); event B(v int); event C(v int); event D(); pattern begin(\"s0\").of(B).times(3).optional()
.followedByAny(\"s1\").of(B).oneOrMore().optional(); skip to_last(\"s0\");\n",
        input: b"A,1,0\n\"A\",-1,4\nB,3,0\n\"B\",3,\"4\"\n\"A\",5,\"0\"\nD,\"3\"\nD,9\nA,9,1\n",
        sizes: &[
            0, 0, 0, 0, 0, 0, 1, 2, 2, 2, 5, 6, 2, 5, 6, 2, 5, 6, 2, 5, 6, 2, 5, 6,
        ],
    },
    Row {
        lag: None,
        file: b"event A(v int); event B(v int); event C(v int); event D(); pattern begin(\"s0\").of(B).where(count(\"s0\") < 2).times(2)
.optional().followedByAny(\"s1\").oneOrMore().consecutive().optional().followedBy(\"s2\").of(A).times(1)
.consecutive();\n",
        input: b"B,2,0\n@,0\nB,5,4\nA,\"8\",\"1\"\n@,6\nB,8,1\n\"B\",7,3\n",
        sizes: &[
            0, 0, 0, 1, 2, 2, 2, 5, 6, 2, 5, 6, 3, 8, 12, 4, 9, 19, 5, 12, 31,
        ],
    },
    Row {
        lag: Some(1),
        file: b"event A(v int); event B(v int); event C(v int); event D(); pattern begin(\"s0\").of(B).followedBy(\"s1\")
.of(A); skip none;\n",
        input: b"B,3,0\n@,2\nA,6,3\n",
        sizes: &[0, 0, 0, 0, 0, 0, 1, 1, 1, 1, 1, 1, 0, 0, 0],
    },
    Row {
        lag: Some(1),
        file: b"event A(v int); event B(v int); event C(v int); event D(); pattern begin(\"s0\").where(v != 4).followedBy(\"s1\").of(A)
.where(!(max(\"s1\".v) == 1)).oneOrMore().allowCombinations().optional(); skip to_first(\"s0\");\n",
        input: b"B,0,2\nC,2,4\n@,3\nD,4\nC,6,\"1\"\nA,9,2\n@,11\nB,12,0\n",
        sizes: &[
            0, 0, 0, 1, 1, 1, 1, 1, 1, 1, 1, 1, 1, 1, 1, 1, 1, 1, 1, 1, 1, 2, 2, 2, 2, 2, 2, 3, 4,
            5, 3, 4, 5, 4, 5, 6,
        ],
    },
    Row {
        lag: Some(1),
        file: b"event A(v int); event B(v int); event C(v int); event D(); pattern begin(\"s0\").of(B).followedBy(\"s1\").of(B)
.optional().followedBy(\"s2\").of(B).times(1,2).followedByAny(\"s3\").oneOrMore().until(v == sum(\"s0\".v)).within(5);\n",
        input: b"A,0,\"0\"\n\"@\",1\nC,6,1\nB,5,\"1\"\n\"C\",11,2\n@,13\n",
        sizes: &[
            0, 0, 0, 0, 0, 0, 0, 0, 0, 0, 0, 0, 1, 1, 1, 1, 1, 1, 1, 1, 1, 0, 0, 0, 0, 0, 0,
        ],
    },
    Row {
        lag: None,
        file: b"event A(v int); event B(v int); event C(v int); event D(); pattern begin(\"s0\").of(B).where(v > 0).next(\"s1\")
.where(count(\"s0\") < 1).or(v < 0).withinGap(2); skip to_first(\"s0\");\n",
        input: b"D,3\nB,5,1\nA,2,2\n",
        sizes: &[0, 0, 0, 0, 0, 0, 1, 1, 1],
    },
    Row {
        lag: Some(3),
        file: b"event A(v int); event B(v int); event C(v int); event D(); pattern begin(\"s0\").of(B).where(v == first(\"s0\").v)
.or(count(\"s0\") < 2).next(\"s1\").of(C).withinGap(4);\n",
        input: b"B,2,1\n@,1\n",
        sizes: &[0, 0, 0, 0, 0, 0, 1, 1, 1],
    },
    Row {
        lag: Some(0),
        file: b"event A(v int); event B(v int); event C(v int); event D(); pattern begin(\"s0\").of(C).where(v == last(\"s0\").v)
.or(count(\"s0\") < 2).times(2).consecutive().notFollowedBy(\"n0\").of(A).where(count(\"s0\") < 2).followedBy(\"s1\")
.of(B).where(v < max(\"s1\".v)).times(2,3).allowCombinations().optional().followedByAny(\"s2\").of(B).oneOrMore()
.within(1).withinGap(4); skip to_last(\"s2\");\n",
        input: b"B,5,3\nC,8,1\nB,9,3\nB,\"12\",3\nA,13,3\n\"B\",15,3\n",
        sizes: &[
            0, 0, 0, 0, 0, 0, 0, 0, 0, 1, 1, 1, 1, 1, 1, 0, 0, 0, 0, 0, 0, 0, 0, 0, 0, 0, 0, 0, 0,
            0, 0, 0, 0, 0, 0, 0,
        ],
    },
    Row {
        lag: Some(1),
        file: b"event A(v int); event B(v int); event C(v int); event D(); pattern begin(\"s0\").of(A).timesOrMore(2).optional()
.within(1);\n",
        input: b"C,\"-1\",0\nA,-2,3\n",
        sizes: &[0, 0, 0, 1, 1, 1, 0, 0, 0],
    },
    Row {
        lag: Some(1),
        file: b"event A(v int); event B(v int); event C(v int); event D(); pattern begin(\"s0\").of(C).timesOrMore(1).optional()
.within(4);\n",
        input: b"C,1,3\nA,3,\"0\"\n@,3\n",
        sizes: &[0, 0, 0, 1, 1, 1, 1, 1, 1, 1, 1, 1, 1, 1, 1],
    },
];

const SECOND: [Row; 10] = [
    Row {
        lag: Some(3),
        file: b"event A(v int); event B(v int); event C(v int); event D(); pattern begin(\"s0\").of(B).followedByAny(\"s1\").of(B)
.where(v == max(\"s1\".v)).timesOrMore(2).allowCombinations().optional().followedByAny(\"s2\").of(B).timesOrMore(2)
.within(3);\n",
        input: b"\"C\",1,2\n@,2\n\"B\",4,2\n",
        sizes: &[0, 0, 0, 0, 0, 0, 0, 0, 0, 1, 1, 1],
    },
    Row {
        lag: Some(1),
        file: b"event A(v int); event B(v int); event C(v int); event D(); pattern begin(\"s0\").of(B).followedBy(\"s1\").where(v != 4)
.or(count(\"s1\") < 1).within(7);\n",
        input: b"C,-2,4\nA,-2,2\n\"B\",-1,1\nB,4,0\nC,7,1\nA,10,3\n",
        sizes: &[
            0, 0, 0, 0, 0, 0, 0, 0, 0, 0, 0, 0, 1, 1, 1, 1, 1, 1, 1, 1, 1, 1, 1, 1, 0, 0, 0, 0, 0,
            0, 0, 0, 0,
        ],
    },
    Row {
        lag: Some(3),
        file: b"event A(v int); event B(v int); event C(v int); event D(); pattern begin(\"s0\").where(!(first(\"s0\").v == 4))
.times(3,3).allowCombinations().optional().followedBy(\"s1\").of(B).where(count(\"s1\") < 2).where(count(\"s0\") < 2)
.times(3,4).allowCombinations().optional().within(4); skip to_next;\n",
        input: b"D,-2\nA,1,4\nA,3,4\nA,1,3\nB,\"5\",4\n",
        sizes: &[
            0, 0, 0, 0, 0, 0, 1, 1, 1, 1, 1, 1, 2, 3, 3, 2, 2, 2, 2, 2, 2, 3, 4, 4, 2, 3, 3,
        ],
    },
    Row {
        lag: Some(0),
        file: b"event A(v int); event B(v int); event C(v int); event D(); pattern begin(\"s0\").where(v != 4).times(3)
.allowCombinations().followedBy(\"s1\").of(A).where(!(v == last(\"s1\").v)).times(2,4).optional().followedBy(\"s2\")
.of(D).where(count(\"s1\") < 1).or(count(\"s2\") < 1).optional().within(7); skip to_first(\"s2\");\n",
        input: b"B,0,4\nB,\"0\",0\nB,1,2\nA,4,\"4\"\n",
        sizes: &[
            0, 0, 0, 0, 0, 0, 1, 1, 1, 1, 1, 1, 2, 3, 3, 2, 3, 3, 2, 3, 3,
        ],
    },
    Row {
        lag: Some(3),
        file: b"event A(v int); event B(v int); event C(v int); event D(); pattern begin(\"s0\").of(A).where(v < 2)
.where(count(\"s0\") < 2).notNext(\"n0\").of(C).where(count(\"s0\") < 1).or(first(\"s0\").v == 0).notNext(\"n1\").of(A)
.where(!(count(\"s0\") < 1)).notFollowedBy(\"n2\").of(D).withinGap(1); skip to_next;\n",
        input: b"A,2,1\nB,3,3\nC,2,0\n@,5\nB,7,3\n",
        sizes: &[
            0, 0, 0, 0, 0, 0, 1, 1, 1, 1, 1, 1, 0, 0, 0, 0, 0, 0, 0, 0, 0,
        ],
    },
    Row {
        lag: Some(0),
        file: b"event A(v int); event B(v int); event C(v int); event D(); pattern begin(\"s0\").of(D).optional().followedByAny(\"s1\")
.where(count(\"s1\") < 1).oneOrMore().consecutive().notNext(\"n0\").of(B).followedByAny(\"s2\").of(C).times(2,4)
.followedByAny(\"s3\").of(C).where(v == 3).or(count(\"s3\") < 2).times(1,3);\n",
        input: b"\"B\",-2,\"4\"\nA,-1,2\nB,0,1\nC,1,1\n@,\"-1\"\nB,3,1\nB,4,0\nA,7,4\nB,9,0\n",
        sizes: &[
            0, 0, 0, 1, 1, 1, 1, 1, 1, 2, 2, 2, 2, 2, 2, 2, 2, 2, 2, 2, 2, 3, 4, 5, 3, 4, 5, 4, 4,
            5, 4, 4, 5, 4, 4, 5, 4, 4, 5, 5, 5, 6, 5, 5, 6, 5, 5, 6,
        ],
    },
    Row {
        lag: None,
        file: b"event A(v int); event B(v int); event C(v int); event D(); pattern begin(\"s0\").of(B).timesOrMore(1)
.allowCombinations().until(v > max(\"s0\".v)).followedBy(\"s1\").of(B).notFollowedBy(\"n0\").next(\"s2\").of(A)
.where(!(v < sum(\"s2\".v))).or(!(v == sum(\"s0\".v))).times(1,3).notFollowedBy(\"n1\").of(A).notFollowedBy(\"n2\")
.within(7).withinGap(3); skip past_last;\n",
        input: b"A,2,0\n\"B\",3,4\n",
        sizes: &[0, 0, 0, 1, 1, 1],
    },
    Row {
        lag: Some(1),
        file: b"event A(v int); event B(v int); event C(v int); event D(); pattern begin(\"s0\").of(B).where(v > 1).oneOrMore()
.allowCombinations().followedBy(\"s1\").of(B).followedBy(\"s2\").times(1,3).within(8); skip past_last;\n",
        input: b"B,-2,4\nB,-5,\"1\"\nC,-2,1\nA,0,1\n\"A\",2,0\nB,1,1\nA,1,\"2\"\nA,2,3\n",
        sizes: &[
            0, 0, 0, 1, 1, 1, 1, 1, 1, 1, 1, 1, 1, 1, 1, 1, 1, 1, 2, 2, 2, 0, 0, 0, 0, 0, 0, 0, 0,
            0,
        ],
    },
    Row {
        lag: None,
        file: b"event A(v int); event B(v int); event C(v int); event D(); pattern begin(\"s0\").times(3).allowCombinations().optional()
.followedByAny(\"s1\").of(A).times(1,1).consecutive().optional().withinGap(4); skip to_last(\"s0\");\n",
        input: b"C,-3,\"1\"\nB,0,4\nD,\"0\"\nA,4,2\nA,5,2\n@,4\n",
        sizes: &[1, 1, 1, 2, 3, 3, 1, 1, 1, 1, 1, 1, 1, 1, 1, 2, 3, 3],
    },
    Row {
        lag: Some(3),
        file: b"event A(v int); event B(v int); event C(v int); event D(); pattern begin(\"s0\").of(B).notFollowedBy(\"n0\")
.notNext(\"n1\").where(v > 1).next(\"s1\").of(A).where(last(\"s0\").v < 4).or(sum(\"s0\".v) > 0).timesOrMore(2)
.consecutive().until(last(\"s0\").v > 1).optional().followedByAny(\"s2\").where(!(count(\"s2\") < 2))
.timesOrMore(3); skip to_first(\"s0\");\n",
        input: b"\"D\",2\nB,3,1\nB,3,3\nA,4,3\nB,\"6\",3\nB,11,4\nB,13,3\n",
        sizes: &[
            0, 0, 0, 0, 0, 0, 0, 0, 0, 0, 0, 0, 0, 0, 0, 1, 1, 1, 1, 1, 1, 0, 0, 0, 1, 1, 1, 1, 1,
            1, 1, 1, 1, 1, 1, 1, 1, 1, 1,
        ],
    },
];

const THIRD: [Row; 10] = [
    Row {
        lag: Some(0),
        file: b"event A(v int); event B(v int); event C(v int); event D(); pattern begin(\"s0\").of(B).times(2)
.within(4); skip past_last;\n",
        input: b"B,2,1\nA,5,\"0\"\nB,3,2\n\"D\",3\nC,7,0\nB,10,2\n",
        sizes: &[
            0, 0, 0, 1, 1, 1, 1, 1, 1, 1, 1, 1, 0, 0, 0, 0, 0, 0, 0, 0, 0, 1, 1, 1,
        ],
    },
    Row {
        lag: None,
        file: b"event A(v int); event B(v int); event C(v int); event D(); pattern begin(\"s0\").of(C).where(count(\"s0\") < 2)
.times(3,3).allowCombinations().optional().followedBy(\"s1\").of(C).optional().followedByAny(\"s2\").of(C)
.timesOrMore(3).allowCombinations().within(5); skip past_last;\n",
        input: b"A,2,2\nA,5,4\nA,6,2\nB,7,4\nA,8,2\nC,9,2\n",
        sizes: &[0, 0, 0, 0, 0, 0, 0, 0, 0, 0, 0, 0, 0, 0, 0, 1, 3, 3],
    },
    Row {
        lag: None,
        file: b"event A(v int); event B(v int); event C(v int); event D(); pattern begin(\"s0\").of(D).where(count(\"s0\") < 2)
.or(count(\"s0\") < 2).times(3).allowCombinations().optional(); skip to_next;\n",
        input: b"A,1,3\nC,1,1\nC,5,\"1\"\nD,\"6\"\nB,5,2\n",
        sizes: &[0, 0, 0, 0, 0, 0, 0, 0, 0, 0, 0, 0, 1, 1, 1],
    },
    Row {
        lag: None,
        file: b"event A(v int); event B(v int); event C(v int); event D(); pattern begin(\"s0\").of(A).times(3).allowCombinations()
.optional().followedBy(\"s1\").where(count(\"s0\") < 1).optional().followedByAny(\"s2\").of(A).optional()
.withinGap(1); skip to_first(\"s0\");\n",
        input: b"@,-1\n@,2\nD,5\nA,\"7\",\"0\"\nC,11,0\nA,14,4\nB,13,3\nD,16\nB,17,0\n",
        sizes: &[
            0, 0, 0, 0, 0, 0, 1, 1, 1, 1, 2, 2, 1, 1, 1, 1, 1, 1, 1, 2, 2, 1, 1, 1, 1, 1, 1,
        ],
    },
    Row {
        lag: None,
        file: b"event A(v int); event B(v int); event C(v int); event D(); pattern begin(\"s0\").times(1,2).notNext(\"n0\").of(C)
.where(!(v < 1)).or(!(last(\"s0\").v < 3)).followedBy(\"s1\").oneOrMore().allowCombinations().until(v == max(\"s1\".v))
.followedBy(\"s2\").of(B).where(v < last(\"s0\").v).optional().within(1); skip past_last;\n",
        input: b"C,-5,1\nC,1,1\nB,2,1\n@,\"2\"\nA,1,4\nA,5,1\nC,7,3\n\"A\",11,2\n",
        sizes: &[
            1, 1, 1, 1, 1, 1, 1, 1, 1, 1, 1, 1, 1, 1, 1, 1, 1, 1, 1, 1, 1,
        ],
    },
    Row {
        lag: None,
        file: b"event A(v int); event B(v int); event C(v int); event D(); pattern begin(\"s0\").of(B).followedBy(\"s1\").of(A)
.where(!(count(\"s1\") < 1)).times(3).allowCombinations(); skip to_next;\n",
        input: b"\"A\",0,1\nB,-1,4\nB,\"0\",\"2\"\n\"A\",4,4\n\"A\",5,1\nD,6\n@,6\n",
        sizes: &[
            1, 1, 1, 1, 1, 1, 2, 2, 2, 2, 2, 2, 2, 2, 2, 2, 2, 2, 2, 2, 2,
        ],
    },
    Row {
        lag: Some(0),
        file: b"event A(v int); event B(v int); event C(v int); event D(); pattern begin(\"s0\").of(A).where(sum(\"s0\".v) < 5).times(1)
.notFollowedBy(\"n0\").of(A).where(!(v > last(\"s0\").v)).notFollowedBy(\"n1\").of(A).where(!(count(\"s0\") < 1))
.followedBy(\"s1\").where(v > 2);\n",
        input: b"C,3,2\n\"B\",3,0\nA,\"7\",2\nB,10,3\nD,10\n",
        sizes: &[
            0, 0, 0, 0, 0, 0, 0, 0, 0, 0, 0, 0, 1, 1, 1, 1, 1, 1, 0, 0, 0, 0, 0, 0,
        ],
    },
    Row {
        lag: None,
        file: b"event A(v int); event B(v int); event C(v int); event D(); pattern begin(\"s0\").of(B).notNext(\"n0\")
.where(count(\"s0\") < 2).next(\"s1\").of(C).times(2,4).optional().next(\"s2\").of(D).where(count(\"s2\") < 1)
.or(count(\"s2\") < 1).optional().next(\"s3\").timesOrMore(2).optional().within(3).withinGap(2);\n",
        input: b"D,3\nA,5,0\nB,8,3\nB,8,3\n",
        sizes: &[0, 0, 0, 0, 0, 0, 1, 1, 1, 1, 1, 1],
    },
    Row {
        lag: Some(0),
        file: b"event A(v int); event B(v int); event C(v int); event D(); pattern begin(\"s0\").of(A).where(count(\"s0\") < 2)
.times(1,3).optional().followedByAny(\"s1\").where(!(count(\"s1\") < 2)).timesOrMore(3).allowCombinations()
.until(last(\"s1\").v == 2); skip to_next;\n",
        input: b"A,\"3\",1\nC,3,3\nB,4,4\n\"C\",7,0\nB,7,0\nB,\"9\",4\nB,9,3\n\"A\",\"10\",0\n\"A\",8,1\n",
        sizes: &[
            0, 0, 0, 1, 1, 1, 1, 1, 1, 1, 1, 1, 1, 1, 1, 1, 1, 1, 1, 1, 1, 1, 1, 1, 1, 1, 1, 1, 1,
            1, 1, 1, 1, 1, 1, 1, 2, 3, 3,
        ],
    },
    Row {
        lag: Some(0),
        file: b"event A(v int); event B(v int); event C(v int); event D(); pattern begin(\"s0\").of(D).times(3,4).notNext(\"n0\").of(D)
.where(count(\"s0\") < 1).notFollowedBy(\"n1\").where(v < 1).followedBy(\"s1\").of(B).where(v != 0).or(!(v != 3))
.followedBy(\"s2\").of(A).where(count(\"s1\") < 2).where(!(count(\"s0\") < 1)).notNext(\"n2\").of(A)
.notFollowedBy(\"n3\").of(D).where(count(\"s1\") < 1).withinGap(3); skip to_first(\"s1\");\n",
        input: b"B,0,0\nA,2,3\nD,3\nA,1,\"4\"\nA,5,3\nB,7,0\nB,9,1\n",
        sizes: &[
            0, 0, 0, 0, 0, 0, 0, 0, 0, 0, 0, 0, 0, 0, 0, 1, 1, 1, 1, 1, 1, 1, 1, 1, 0, 0, 0, 0, 0,
            0, 0, 0, 0, 0, 0, 0,
        ],
    },
];

const FOURTH: [Row; 10] = [
    Row {
        lag: Some(1),
        file: b"event A(v int); event B(v int); event C(v int); event D(); pattern begin(\"s0\").where(count(\"s0\") < 1).where(v == 0)
.notFollowedBy(\"n0\").next(\"s1\").of(A).where(v == first(\"s1\").v).times(3).allowCombinations().within(7);\n",
        input: b"C,-3,0\nA,1,0\nB,1,0\n",
        sizes: &[0, 0, 0, 1, 1, 1, 1, 1, 1, 1, 1, 1, 1, 1, 1],
    },
    Row {
        lag: Some(0),
        file: b"event A(v int); event B(v int); event C(v int); event D(); pattern begin(\"s0\").of(D).where(count(\"s0\") < 1)
.or(count(\"s0\") < 2).next(\"s1\").of(A).where(v == 1).or(v == last(\"s1\").v).optional().withinGap(3); skip none;\n",
        input: b"B,-1,4\n@,-1\nD,-2\nD,1\n\"C\",5,4\nB,5,1\nB,7,3\n",
        sizes: &[
            0, 0, 0, 0, 0, 0, 0, 0, 0, 0, 0, 0, 1, 1, 1, 0, 0, 0, 0, 0, 0, 0, 0, 0, 0, 0, 0, 0, 0,
            0,
        ],
    },
    Row {
        lag: Some(1),
        file: b"event A(v int); event B(v int); event C(v int); event D(); pattern begin(\"s0\").of(B).where(count(\"s0\") < 1)
.or(v == min(\"s0\".v)).timesOrMore(1).until(v > 1).followedByAny(\"s1\").of(B).where(v < min(\"s0\".v)).timesOrMore(1)
.allowCombinations(); skip none;\n",
        input: b"C,-2,2\nB,0,3\nB,0,1\nA,2,\"1\"\nC,4,3\n",
        sizes: &[
            0, 0, 0, 0, 0, 0, 0, 0, 0, 0, 0, 0, 1, 1, 1, 1, 1, 1, 1, 1, 1, 1, 1, 1, 1, 1, 1,
        ],
    },
    Row {
        lag: Some(3),
        file: b"event A(v int); event B(v int); event C(v int); event D(); pattern begin(\"s0\").of(B).times(3).allowCombinations()
.followedBy(\"s1\").of(B).timesOrMore(3).consecutive().optional().followedBy(\"s2\").of(B).oneOrMore()
.until(count(\"s1\") < 1).optional().withinGap(3); skip none;\n",
        input: b"A,2,2\nA,2,1\nC,3,3\n\"C\",6,0\nC,8,3\nB,12,1\nB,14,0\n",
        sizes: &[
            0, 0, 0, 0, 0, 0, 0, 0, 0, 0, 0, 0, 0, 0, 0, 0, 0, 0, 0, 0, 0, 0, 0, 0, 0, 0, 0, 0, 0,
            0, 0, 0, 0, 1, 1, 1, 2, 3, 3,
        ],
    },
    Row {
        lag: None,
        file: b"event A(v int); event B(v int); event C(v int); event D(); pattern begin(\"s0\").of(A).where(!(v == first(\"s0\").v))
.times(2,4).notFollowedBy(\"n0\").next(\"s1\").of(B).where(count(\"s0\") < 2).timesOrMore(1).optional()
.followedByAny(\"s2\").of(B).where(v > first(\"s2\").v).times(3,4).allowCombinations().withinGap(4); skip to_next;\n",
        input: b"@,-4\nB,0,4\nB,3,1\nB,4,4\nC,8,2\nD,11\n@,12\nB,12,3\n\"A\",\"14\",2\n",
        sizes: &[
            0, 0, 0, 0, 0, 0, 0, 0, 0, 0, 0, 0, 0, 0, 0, 0, 0, 0, 0, 0, 0, 1, 1, 1,
        ],
    },
    Row {
        lag: Some(3),
        file: b"event A(v int); event B(v int); event C(v int); event D(); pattern begin(\"s0\").of(A).where(v != 2).or(!(last(\"s0\")
.v > 4)).times(1,1).followedBy(\"s1\").of(B).where(count(\"s0\") < 2).where(v > last(\"s0\").v).oneOrMore()
.consecutive().until(count(\"s0\") < 2).notNext(\"n0\").of(B).where(v < sum(\"s1\".v)).notNext(\"n1\").of(B)
.next(\"s2\").timesOrMore(2).allowCombinations(); skip to_first(\"s1\");\n",
        input: b"C,-2,4\nA,1,3\nD,1\n\"@\",-2\n@,-1\nC,5,1\nA,6,2\n",
        sizes: &[
            0, 0, 0, 0, 0, 0, 0, 0, 0, 0, 0, 0, 0, 0, 0, 1, 1, 1, 1, 1, 1, 1, 1, 1, 1, 1, 1, 1, 1,
            1, 2, 2, 2,
        ],
    },
    Row {
        lag: None,
        file: b"event A(v int); event B(v int); event C(v int); event D(); pattern begin(\"s0\").followedBy(\"s1\").timesOrMore(2)
.notFollowedBy(\"n0\").of(B).where(v > last(\"s1\").v).where(v > max(\"s0\".v)).notNext(\"n1\").followedByAny(\"s2\")
.of(A).where(!(count(\"s1\") < 2)).timesOrMore(1).allowCombinations().followedBy(\"s3\").of(A).where(!(v < first(\"s3\")
.v)); skip to_first(\"s1\");\n",
        input: b"A,0,\"1\"\nA,0,3\n",
        sizes: &[1, 1, 1, 2, 3, 3],
    },
    Row {
        lag: Some(0),
        file: b"event A(v int); event B(v int); event C(v int); event D(); pattern begin(\"s0\").of(A).followedByAny(\"s1\").of(B)
.where(sum(\"s0\".v) > 2).followedByAny(\"s2\").of(B).optional(); skip past_last;\n",
        input: b"A,-2,4\nC,3,3\n",
        sizes: &[0, 0, 0, 1, 1, 1, 1, 1, 1, 1, 1, 1],
    },
    Row {
        lag: None,
        file: b"event A(v int); event B(v int); event C(v int); event D(); pattern begin(\"s0\").of(B).where(v > min(\"s0\".v))
.or(v > 1).followedByAny(\"s1\").of(B).oneOrMore().consecutive().until(v > 2).within(8); skip to_last(\"s1\");\n",
        input: b"D,-1\nB,4,3\n@,\"3\"\nA,6,1\n\"B\",9,\"1\"\nD,11\n@,14\n",
        sizes: &[
            0, 0, 0, 0, 0, 0, 1, 1, 1, 1, 1, 1, 0, 0, 0, 0, 0, 0, 0, 0, 0,
        ],
    },
    Row {
        lag: None,
        file: b"event A(v int); event B(v int); event C(v int); event D(); pattern begin(\"s0\").of(A).times(1).notFollowedBy(\"n0\")
.of(B).followedByAny(\"s1\").of(D).where(count(\"s1\") < 2).where(count(\"s1\") < 1); skip to_next;\n",
        input: b"B,3,2\nB,5,3\nA,6,4\nB,6,3\n",
        sizes: &[0, 0, 0, 0, 0, 0, 1, 1, 1, 0, 0, 0],
    },
];

const FIFTH: [Row; 10] = [
    Row {
        lag: None,
        file: b"event A(v int); event B(v int); event C(v int); event D(); pattern begin(\"s0\").of(C).where(count(\"s0\") < 2).times(2)
.consecutive().optional().followedBy(\"s1\").of(B).notNext(\"n0\").of(C).where(!(last(\"s0\").v > 1))
.notFollowedBy(\"n1\").of(B).where(count(\"s1\") < 1).within(3); skip to_next;\n",
        input: b"\"D\",2\nB,3,4\nA,5,1\nB,6,1\n@,6\n\"B\",8,3\nB,9,\"3\"\nA,12,2\n",
        sizes: &[
            0, 0, 0, 1, 1, 1, 1, 1, 1, 1, 1, 1, 1, 1, 1, 2, 2, 2, 2, 2, 2, 0, 0, 0,
        ],
    },
    Row {
        lag: None,
        file: b"event A(v int); event B(v int); event C(v int); event D(); pattern begin(\"s0\").where(count(\"s0\") < 1).oneOrMore()
.until(v < max(\"s0\".v)).followedBy(\"s1\").of(A).where(max(\"s1\".v) > 1).where(v == min(\"s1\".v)).times(3)
.followedBy(\"s2\").of(B).oneOrMore().until(v == 1).optional().withinGap(4);\n",
        input: b"\"@\",1\nA,3,4\nB,5,1\n@,5\nC,7,1\n",
        sizes: &[0, 0, 0, 1, 1, 1, 2, 2, 2, 2, 2, 2, 2, 2, 2],
    },
    Row {
        lag: None,
        file: b"event A(v int); event B(v int); event C(v int); event D(); pattern begin(\"s0\").of(A).times(3).followedBy(\"s1\").of(D)
.times(3).notNext(\"n0\").notFollowedBy(\"n1\").of(D).where(count(\"s0\") < 2).next(\"s2\").where(min(\"s0\".v) > 2)
.or(v == max(\"s2\".v)).timesOrMore(1).consecutive().notFollowedBy(\"n2\").where(v > last(\"s2\").v)
.or(count(\"s2\") < 2).within(1); skip to_last(\"s0\");\n",
        input: b"B,3,4\n\"B\",4,3\n\"A\",4,3\nB,5,0\nA,\"3\",3\nB,8,2\nB,9,0\nC,\"9\",\"2\"\nC,13,2\n",
        sizes: &[
            0, 0, 0, 1, 1, 1, 0, 0, 0, 1, 1, 1, 0, 0, 0, 0, 0, 0, 0, 0, 0, 0, 0, 0, 0, 0, 0,
        ],
    },
    Row {
        lag: Some(3),
        file: b"event A(v int); event B(v int); event C(v int); event D(); pattern begin(\"s0\").of(D).notNext(\"n0\").of(C)
.where(count(\"s0\") < 2).notFollowedBy(\"n1\").where(v != 1).followedBy(\"s1\").of(C).oneOrMore().allowCombinations()
.followedBy(\"s2\").of(B).where(count(\"s2\") < 1).oneOrMore().consecutive(); skip to_first(\"s1\");\n",
        input: b"B,-1,3\nB,1,1\nB,2,1\n\"A\",6,3\nD,7\nC,7,4\nA,8,3\nC,11,0\n\"B\",10,1\n",
        sizes: &[
            0, 0, 0, 0, 0, 0, 0, 0, 0, 0, 0, 0, 0, 0, 0, 0, 0, 0, 0, 0, 0, 0, 0, 0, 0, 0, 0, 0, 0,
            0, 1, 1, 1, 0, 0, 0, 0, 0, 0, 0, 0, 0, 0, 0, 0, 0, 0, 0,
        ],
    },
    Row {
        lag: Some(0),
        file: b"event A(v int); event B(v int); event C(v int); event D(); pattern begin(\"s0\").of(B).optional().followedBy(\"s1\")
.of(A).where(v == max(\"s0\".v)).notNext(\"n0\").of(D).where(count(\"s0\") < 1).notFollowedBy(\"n1\").of(C)
.where(count(\"s1\") < 2).within(5).withinGap(3);\n",
        input: b"A,0,3\nB,1,3\n@,2\nC,5,\"4\"\nB,6,\"2\"\n@,4\nC,\"7\",1\nA,7,1\n@,8\n",
        sizes: &[
            0, 0, 0, 0, 0, 0, 0, 0, 0, 1, 1, 1, 1, 1, 1, 0, 0, 0, 0, 0, 0, 0, 0, 0, 1, 1, 1, 1, 1,
            1, 1, 1, 1, 1, 1, 1, 1, 1, 1,
        ],
    },
    Row {
        lag: Some(1),
        file: b"event A(v int); event B(v int); event C(v int); event D(); pattern begin(\"s0\").of(A).where(max(\"s0\".v) == 1)
.times(3,5).optional().followedByAny(\"s1\").of(B).where(count(\"s0\") < 1).or(!(last(\"s1\").v < 4)).times(2)
.notNext(\"n0\").of(B).notFollowedBy(\"n1\").followedBy(\"s2\").of(C).where(v > min(\"s2\".v))
.where(!(sum(\"s1\".v) == 2)).times(1).allowCombinations(); skip none;\n",
        input: b"B,2,3\nA,4,4\n",
        sizes: &[0, 0, 0, 1, 1, 1, 1, 1, 1, 1, 1, 1],
    },
    Row {
        lag: Some(3),
        file: b"event A(v int); event B(v int); event C(v int); event D(); pattern begin(\"s0\").optional().followedBy(\"s1\").of(B)
.notFollowedBy(\"n0\").of(C).notFollowedBy(\"n1\").of(D).followedBy(\"s2\").of(A).where(count(\"s0\") < 1).optional()
.next(\"s3\").of(A).oneOrMore().within(6).withinGap(3); skip none;\n",
        input: b"D,1\nD,\"2\"\nA,2,0\nA,0,0\nD,4\nC,5,0\nA,6,3\nA,7,\"0\"\n",
        sizes: &[
            0, 0, 0, 0, 0, 0, 1, 1, 1, 1, 1, 1, 2, 2, 2, 2, 2, 2, 3, 3, 3, 4, 4, 4, 4, 4, 4, 3, 3,
            3, 3, 3, 3, 2, 2, 2, 3, 3, 3, 3, 3, 3,
        ],
    },
    Row {
        lag: Some(1),
        file: b"event A(v int); event B(v int); event C(v int); event D(); pattern begin(\"s0\").of(A).where(v == sum(\"s0\".v))
.or(count(\"s0\") < 1).next(\"s1\").of(B).where(min(\"s0\".v) == 2).oneOrMore().within(8).withinGap(2); skip to_next;\n",
        input: b"A,3,3\nB,\"4\",2\nB,5,3\nA,7,1\nC,8,2\n",
        sizes: &[
            0, 0, 0, 0, 0, 0, 1, 1, 1, 1, 1, 1, 0, 0, 0, 0, 0, 0, 0, 0, 0, 0, 0, 0, 1, 1, 1, 0, 0,
            0,
        ],
    },
    Row {
        lag: None,
        file: b"event A(v int); event B(v int); event C(v int); event D(); pattern begin(\"s0\").of(C).where(count(\"s0\") < 2)
.notNext(\"n0\").of(A).where(first(\"s0\").v < 0).notNext(\"n1\").where(count(\"s0\") < 1).followedBy(\"s1\").of(B)
.where(min(\"s1\".v) > 5).times(3,4).consecutive().notFollowedBy(\"n2\").of(B).notFollowedBy(\"n3\").of(A)
.where(first(\"s0\").v < 1).where(count(\"s1\") < 2).followedByAny(\"s2\").of(A).within(3)
.withinGap(3); skip past_last;\n",
        input: b"@,1\nB,3,0\nA,4,0\nB,5,0\nD,6\nC,3,2\nA,\"3\",\"0\"\n@,8\n",
        sizes: &[
            0, 0, 0, 0, 0, 0, 1, 1, 1, 1, 1, 1, 1, 1, 1, 1, 1, 1, 0, 0, 0, 0, 0, 0,
        ],
    },
    Row {
        lag: Some(1),
        file: b"event A(v int); event B(v int); event C(v int); event D(); pattern begin(\"s0\").of(B).times(1).followedByAny(\"s1\")
.times(3,3).consecutive().notFollowedBy(\"n0\").of(A).notFollowedBy(\"n1\").of(B).followedBy(\"s2\").of(C).times(2,4)
.followedBy(\"s3\").of(B).within(1); skip to_first(\"s1\");\n",
        input: b"B,-1,3\nB,2,4\nA,5,4\n@,5\n\"@\",7\nA,8,4\nC,11,0\n",
        sizes: &[
            0, 0, 0, 1, 1, 1, 0, 0, 0, 1, 1, 1, 0, 0, 0, 0, 0, 0, 0, 0, 0, 0, 0, 0, 0, 0, 0, 0, 0,
            0, 0, 0, 0,
        ],
    },
];

const SIXTH: [Row; 10] = [
    Row {
        lag: None,
        file: b"event A(v int); event B(v int); event C(v int); event D(); pattern begin(\"s0\").of(A).where(v > 0).times(1,3)
.allowCombinations().notNext(\"n0\").of(C).notNext(\"n1\").where(count(\"s0\") < 1).followedBy(\"s1\").of(C)
.where(v > first(\"s1\").v).notFollowedBy(\"n2\").of(B).notFollowedBy(\"n3\").of(A).where(v == last(\"s0\").v)
.next(\"s2\").of(D).oneOrMore().consecutive().notFollowedBy(\"n4\").of(B).where(count(\"s2\") < 2).where(last(\"s1\")
.v < 0).within(4); skip to_last(\"s1\");\n",
        input: b"A,2,2\n\"@\",2\nC,4,1\n",
        sizes: &[1, 1, 1, 1, 1, 1, 1, 1, 1],
    },
    Row {
        lag: Some(0),
        file: b"event A(v int); event B(v int); event C(v int); event D(); pattern begin(\"s0\").of(C).timesOrMore(1)
.until(count(\"s0\") < 1).optional().followedBy(\"s1\").of(A).optional().followedBy(\"s2\").times(2,3).consecutive()
.optional().withinGap(2); skip to_last(\"s0\");\n",
        input: b"\"C\",3,2\n\"A\",1,1\n",
        sizes: &[0, 0, 0, 1, 1, 1],
    },
    Row {
        lag: Some(3),
        file: b"event A(v int); event B(v int); event C(v int); event D(); pattern begin(\"s0\").of(B).oneOrMore().allowCombinations()
.followedBy(\"s1\").of(B).where(count(\"s0\") < 2); skip past_last;\n",
        input: b"A,-2,4\nA,-1,4\nA,1,1\nB,5,0\nB,3,3\nB,\"7\",\"0\"\nD,7\nA,5,0\n",
        sizes: &[
            0, 0, 0, 0, 0, 0, 0, 0, 0, 0, 0, 0, 0, 0, 0, 0, 0, 0, 0, 0, 0, 1, 1, 1, 1, 1, 1, 0, 0,
            0, 0, 0, 0, 1, 1, 1, 1, 1, 1,
        ],
    },
    Row {
        lag: Some(1),
        file: b"event A(v int); event B(v int); event C(v int); event D(); pattern begin(\"s0\").of(B).optional().followedBy(\"s1\")
.of(A).where(v > first(\"s1\").v).optional().followedBy(\"s2\").of(A).where(!(count(\"s0\") < 1)).oneOrMore()
.consecutive().until(count(\"s2\") < 2).within(6); skip to_last(\"s0\");\n",
        input: b"B,2,2\nC,1,\"0\"\nA,4,\"2\"\nB,10,4\n\"C\",13,2\nC,12,3\nC,14,4\n",
        sizes: &[
            0, 0, 0, 0, 0, 0, 1, 1, 1, 1, 1, 1, 1, 1, 1, 0, 0, 0, 1, 1, 1, 1, 1, 1, 1, 1, 1, 1, 1,
            1, 1, 1, 1, 1, 1, 1,
        ],
    },
    Row {
        lag: None,
        file: b"event A(v int); event B(v int); event C(v int); event D(); pattern begin(\"s0\").of(B).where(v != 4)
.followedByAny(\"s1\").of(D);\n",
        input: b"A,2,2\n@,2\nA,6,0\nA,7,2\nA,\"8\",3\n@,9\n\"C\",\"12\",4\nB,10,0\n",
        sizes: &[
            0, 0, 0, 0, 0, 0, 0, 0, 0, 0, 0, 0, 0, 0, 0, 0, 0, 0, 1, 1, 1, 1, 1, 1,
        ],
    },
    Row {
        lag: Some(3),
        file: b"event A(v int); event B(v int); event C(v int); event D(); pattern begin(\"s0\").of(D).where(count(\"s0\") < 1)
.times(3,4).optional().next(\"s1\").of(C).oneOrMore().followedBy(\"s2\").of(A).notFollowedBy(\"n0\").of(C)
.followedBy(\"s3\").of(D).where(count(\"s1\") < 1); skip to_last(\"s0\");\n",
        input: b"@,3\nA,6,2\nA,7,1\nB,5,3\nA,\"8\",4\nB,12,\"0\"\nD,13\n@,16\nA,\"14\",\"1\"\n",
        sizes: &[
            0, 0, 0, 0, 0, 0, 0, 0, 0, 0, 0, 0, 0, 0, 0, 0, 0, 0, 0, 0, 0, 0, 0, 0, 0, 0, 0, 1, 1,
            1, 1, 1, 1,
        ],
    },
    Row {
        lag: None,
        file: b"event A(v int); event B(v int); event C(v int); event D(); pattern begin(\"s0\").of(A).times(2,4).optional()
.followedBy(\"s1\").of(B).times(3,4).next(\"s2\").of(B).where(count(\"s2\") < 2).followedBy(\"s3\").of(B)
.where(min(\"s1\".v) == 3).withinGap(2);\n",
        input: b"B,1,2\nA,3,3\nA,6,4\nC,6,\"4\"\nC,7,0\n",
        sizes: &[1, 1, 1, 1, 1, 1, 1, 1, 1, 1, 1, 1, 1, 1, 1],
    },
    Row {
        lag: Some(1),
        file: b"event A(v int); event B(v int); event C(v int); event D(); pattern begin(\"s0\").of(C).where(count(\"s0\") < 2)
.timesOrMore(2).consecutive().within(6); skip none;\n",
        input: b"B,2,0\nA,3,1\nC,4,4\nC,5,\"4\"\nA,5,1\nD,6\nB,8,2\n\"B\",10,2\n",
        sizes: &[
            0, 0, 0, 0, 0, 0, 0, 0, 0, 0, 0, 0, 0, 0, 0, 0, 0, 0, 1, 1, 1, 1, 1, 1, 2, 3, 3, 0, 0,
            0, 0, 0, 0, 0, 0, 0, 0, 0, 0, 0, 0, 0, 0, 0, 0,
        ],
    },
    Row {
        lag: Some(3),
        file: b"event A(v int); event B(v int); event C(v int); event D(); pattern begin(\"s0\").of(B).times(1,2).followedBy(\"s1\")
.of(A).where(!(max(\"s1\".v) < 1)).times(2,4).allowCombinations().followedBy(\"s2\").of(B).where(count(\"s0\") < 2)
.or(count(\"s1\") < 2).optional(); skip to_last(\"s2\");\n",
        input: b"B,0,1\nC,3,3\nB,6,3\nB,7,2\nC,8,2\n@,9\n",
        sizes: &[
            0, 0, 0, 0, 0, 0, 1, 1, 1, 1, 1, 1, 1, 1, 1, 1, 1, 1, 1, 1, 1, 2, 3, 3, 3, 5, 5, 3, 5,
            5, 3, 5, 5,
        ],
    },
    Row {
        lag: None,
        file: b"event A(v int); event B(v int); event C(v int); event D(); pattern begin(\"s0\").of(B).where(last(\"s0\").v > 0)
.or(count(\"s0\") < 2).followedBy(\"s1\").of(A).oneOrMore().allowCombinations().until(v > 2).optional()
.followedByAny(\"s2\").where(v < sum(\"s2\".v)).where(v == last(\"s0\").v).notFollowedBy(\"n0\").of(B).within(8);\n",
        input: b"\"A\",5,2\nB,6,2\nB,6,2\nA,8,0\nB,9,3\nB,12,3\n\"D\",15\nB,17,4\nB,\"18\",2\n",
        sizes: &[
            0, 0, 0, 1, 1, 1, 2, 2, 2, 3, 3, 4, 4, 4, 5, 5, 5, 6, 2, 2, 2, 2, 2, 2, 3, 3, 3,
        ],
    },
];

const SEVENTH: [Row; 10] = [
    Row {
        lag: Some(0),
        file: b"event A(v int); event B(v int); event C(v int); event D(); pattern begin(\"s0\").of(B).times(1,2).allowCombinations()
.followedBy(\"s1\").of(A).followedByAny(\"s2\").of(B).timesOrMore(2).followedBy(\"s3\").of(D).where(count(\"s1\") < 2)
.timesOrMore(1).consecutive(); skip past_last;\n",
        input: b"A,1,2\nB,5,0\nA,6,2\n@,7\nB,8,0\n",
        sizes: &[
            0, 0, 0, 0, 0, 0, 0, 0, 0, 1, 1, 1, 1, 1, 1, 2, 2, 2, 2, 2, 2, 3, 5, 5,
        ],
    },
    Row {
        lag: Some(1),
        file: b"event A(v int); event B(v int); event C(v int); event D(); pattern begin(\"s0\").of(A).times(1).allowCombinations()
.followedBy(\"s1\").of(A).where(count(\"s1\") < 1).withinGap(4);\n",
        input: b"A,\"0\",0\nA,\"0\",\"3\"\n\"D\",2\nB,2,1\nC,2,3\nA,4,\"2\"\n",
        sizes: &[
            0, 0, 0, 1, 1, 1, 1, 1, 1, 1, 1, 1, 1, 1, 1, 1, 1, 1, 1, 1, 1, 1, 1, 1, 1, 1, 1,
        ],
    },
    Row {
        lag: None,
        file: b"event A(v int); event B(v int); event C(v int); event D(); pattern begin(\"s0\").of(A).times(3).optional()
.followedBy(\"s1\").of(A).next(\"s2\").of(B).where(first(\"s0\").v < 5).notFollowedBy(\"n0\").of(D)
.where(count(\"s2\") < 1).or(count(\"s0\") < 1).withinGap(1); skip past_last;\n",
        input: b"C,1,1\nB,3,\"4\"\nB,\"4\",4\n@,5\nA,7,4\nB,8,0\nB,9,0\n",
        sizes: &[
            0, 0, 0, 0, 0, 0, 0, 0, 0, 0, 0, 0, 1, 2, 2, 0, 0, 0, 0, 0, 0,
        ],
    },
    Row {
        lag: Some(3),
        file: b"event A(v int); event B(v int); event C(v int); event D(); pattern begin(\"s0\").of(B).where(count(\"s0\") < 1)
.followedBy(\"s1\").within(3); skip to_first(\"s0\");\n",
        input: b"\"B\",-3,2\nA,-1,1\nA,2,0\nA,\"3\",\"2\"\nA,5,\"2\"\nA,\"6\",\"4\"\nC,8,2\nB,7,1\n",
        sizes: &[
            0, 0, 0, 0, 0, 0, 1, 1, 1, 1, 1, 1, 0, 0, 0, 0, 0, 0, 0, 0, 0, 0, 0, 0, 0, 0, 0, 0, 0,
            0, 0, 0, 0, 0, 0, 0, 0, 0, 0, 1, 1, 1, 0, 0, 0,
        ],
    },
    Row {
        lag: None,
        file: b"event A(v int); event B(v int); event C(v int); event D(); pattern begin(\"s0\").of(A).times(2).allowCombinations()
.followedByAny(\"s1\").of(A).times(3,5).optional().within(5).withinGap(4); skip to_first(\"s1\");\n",
        input: b"B,3,3\nA,5,3\nC,8,4\n\"C\",9,\"4\"\nC,11,3\nB,14,2\n@,14\nB,17,2\n@,16\n",
        sizes: &[
            0, 0, 0, 1, 1, 1, 1, 1, 1, 0, 0, 0, 0, 0, 0, 0, 0, 0, 0, 0, 0, 0, 0, 0, 0, 0, 0,
        ],
    },
    Row {
        lag: Some(1),
        file: b"event A(v int); event B(v int); event C(v int); event D(); pattern begin(\"s0\").of(A).optional().followedBy(\"s1\")
.of(A).notFollowedBy(\"n0\").of(A).where(first(\"s1\").v == 5).notFollowedBy(\"n1\").of(A).followedByAny(\"s2\").of(B)
.where(v < sum(\"s1\".v)).timesOrMore(1).consecutive(); skip to_next;\n",
        input: b"A,2,2\nA,\"3\",3\nA,4,1\nC,5,3\nA,8,\"2\"\nC,9,3\n\"C\",11,4\nB,8,2\nD,\"9\"\n",
        sizes: &[
            0, 0, 0, 0, 0, 0, 1, 2, 2, 1, 2, 2, 2, 3, 4, 2, 3, 4, 2, 3, 4, 2, 3, 4, 2, 3, 4, 2, 3,
            4, 2, 3, 4, 2, 3, 4, 2, 3, 4, 2, 3, 4,
        ],
    },
    Row {
        lag: None,
        file: b"event A(v int); event B(v int); event C(v int); event D(); pattern begin(\"s0\").of(B).where(count(\"s0\") < 2)
.notFollowedBy(\"n0\").of(B).where(count(\"s0\") < 2).notFollowedBy(\"n1\").of(A).where(v > sum(\"s0\".v))
.or(count(\"s0\") < 2).within(3); skip to_next;\n",
        input: b"B,-1,2\n@,-3\n@,0\nB,4,3\n\"B\",5,2\nC,\"7\",\"4\"\nA,8,1\n@,6\nA,12,2\n",
        sizes: &[
            0, 0, 0, 1, 1, 1, 1, 1, 1, 1, 1, 1, 1, 1, 1, 1, 1, 1, 1, 1, 1, 0, 0, 0, 0, 0, 0,
        ],
    },
    Row {
        lag: None,
        file: b"event A(v int); event B(v int); event C(v int); event D(); pattern begin(\"s0\").of(A).where(count(\"s0\") < 2)
.where(count(\"s0\") < 2).times(2).optional().followedBy(\"s1\").of(A).where(!(first(\"s0\").v < 4)).timesOrMore(2)
.consecutive().notFollowedBy(\"n0\").of(D).within(1); skip to_first(\"s0\");\n",
        input: b"D,-3\n\"C\",\"-1\",1\n@,1\nA,3,\"2\"\nD,4\n@,5\n\"B\",6,2\n",
        sizes: &[
            0, 0, 0, 0, 0, 0, 0, 0, 0, 1, 2, 2, 0, 0, 0, 0, 0, 0, 0, 0, 0,
        ],
    },
    Row {
        lag: Some(3),
        file: b"event A(v int); event B(v int); event C(v int); event D(); pattern begin(\"s0\").of(B).times(2).next(\"s1\").of(B)
.where(v > sum(\"s1\".v)).where(!(last(\"s0\").v == 2)); skip to_last(\"s0\");\n",
        input: b"A,2,4\nB,5,\"1\"\n@,5\nA,3,1\n",
        sizes: &[0, 0, 0, 0, 0, 0, 0, 0, 0, 1, 1, 1, 1, 1, 1],
    },
    Row {
        lag: Some(3),
        file: b"event A(v int); event B(v int); event C(v int); event D(); pattern begin(\"s0\").of(B).where(v != 0).timesOrMore(2)
.allowCombinations().notNext(\"n0\").of(B).where(count(\"s0\") < 1).followedByAny(\"s1\").where(count(\"s1\") < 2)
.timesOrMore(3).consecutive().optional().next(\"s2\").of(A).where(last(\"s2\").v > 3).notNext(\"n1\").of(A)
.where(v != 1).notNext(\"n2\").of(D).where(count(\"s2\") < 2).or(count(\"s0\") < 2).followedBy(\"s3\").of(C)
.where(v == sum(\"s1\".v)).times(1,1).withinGap(2); skip past_last;\n",
        input: b"C,1,3\nB,-1,4\n\"@\",1\nA,4,0\n",
        sizes: &[0, 0, 0, 1, 1, 1, 0, 0, 0, 0, 0, 0, 0, 0, 0],
    },
];

const EIGHTH: [Row; 10] = [
    Row {
        lag: Some(1),
        file: b"event A(v int); event B(v int); event C(v int); event D(); pattern begin(\"s0\").of(D).oneOrMore().optional()
.followedBy(\"s1\").of(B).where(v < 0).oneOrMore().consecutive(); skip to_last(\"s1\");\n",
        input: b"C,2,4\nA,4,1\nA,5,1\nB,4,4\nB,\"7\",2\nD,7\nC,9,2\nA,12,0\nC,14,4\n",
        sizes: &[
            0, 0, 0, 0, 0, 0, 0, 0, 0, 0, 0, 0, 0, 0, 0, 0, 0, 0, 0, 0, 0, 0, 0, 0, 0, 0, 0, 1, 1,
            1, 1, 1, 1, 1, 1, 1, 1, 1, 1, 1, 1, 1, 1, 1, 1, 1, 1, 1,
        ],
    },
    Row {
        lag: None,
        file: b"event A(v int); event B(v int); event C(v int); event D(); pattern begin(\"s0\").of(B).where(count(\"s0\") < 2).times(2)
.notFollowedBy(\"n0\").where(!(v < last(\"s0\").v)).followedBy(\"s1\").where(!(v > first(\"s1\").v))
.notFollowedBy(\"n1\").where(count(\"s1\") < 1).notFollowedBy(\"n2\").of(C).withinGap(1); skip none;\n",
        input: b"A,-1,0\nA,3,0\nC,5,1\nA,6,3\nB,4,1\nC,6,3\nB,8,2\n",
        sizes: &[
            0, 0, 0, 0, 0, 0, 1, 1, 1, 0, 0, 0, 0, 0, 0, 0, 0, 0, 1, 1, 1,
        ],
    },
    Row {
        lag: Some(1),
        file: b"event A(v int); event B(v int); event C(v int); event D(); pattern begin(\"s0\").where(v != 4).followedBy(\"s1\").of(B)
.where(sum(\"s0\".v) > 3).within(6); skip to_first(\"s1\");\n",
        input: b"A,-4,1\n",
        sizes: &[0, 0, 0, 1, 1, 1],
    },
    Row {
        lag: None,
        file: b"event A(v int); event B(v int); event C(v int); event D(); pattern begin(\"s0\").of(B).next(\"s1\").of(B)
.where(count(\"s1\") < 2).next(\"s2\").of(D).where(count(\"s2\") < 2).times(3).consecutive().notFollowedBy(\"n0\")
.withinGap(2);\n",
        input: b"@,2\nA,\"4\",4\nB,5,4\nC,4,1\nA,9,2\nB,8,4\n",
        sizes: &[0, 0, 0, 0, 0, 0, 0, 0, 0, 1, 1, 1, 1, 1, 1, 0, 0, 0],
    },
    Row {
        lag: Some(3),
        file: b"event A(v int); event B(v int); event C(v int); event D(); pattern begin(\"s0\").of(B).where(v > 0).next(\"s1\").of(A)
.where(v < sum(\"s1\".v)); skip to_last(\"s1\");\n",
        input: b"B,-1,2\nD,2\n\"B\",\"2\",1\nB,3,1\nA,\"1\",1\n@,1\nA,4,2\nB,6,3\n",
        sizes: &[
            0, 0, 0, 0, 0, 0, 1, 1, 1, 1, 1, 1, 0, 0, 0, 0, 0, 0, 0, 0, 0, 1, 1, 1, 1, 1, 1, 1, 1,
            1, 0, 0, 0, 1, 1, 1,
        ],
    },
    Row {
        lag: Some(1),
        file: b"event A(v int); event B(v int); event C(v int); event D(); pattern begin(\"s0\").of(A).where(!(v < 1)).optional()
.followedBy(\"s1\").of(A).where(v < 0).followedByAny(\"s2\").times(3).withinGap(4);\n",
        input: b"B,3,3\nA,6,4\nB,\"8\",4\nA,9,2\nA,6,2\n\"A\",11,0\nB,\"12\",\"1\"\n",
        sizes: &[
            0, 0, 0, 0, 0, 0, 0, 0, 0, 1, 1, 1, 1, 1, 1, 1, 1, 1, 1, 1, 1, 2, 2, 2, 2, 2, 2, 1, 1,
            1, 1, 1, 1, 1, 1, 1,
        ],
    },
    Row {
        lag: None,
        file: b"event A(v int); event B(v int); event C(v int); event D(); pattern begin(\"s0\").of(B).times(3).notNext(\"n0\").of(C)
.where(v < 2).followedBy(\"s1\").of(B).times(2).consecutive().optional();\n",
        input: b"C,0,4\n\"B\",\"2\",0\nB,4,1\nC,4,3\n",
        sizes: &[0, 0, 0, 1, 1, 1, 2, 3, 3, 2, 3, 3],
    },
    Row {
        lag: None,
        file: b"event A(v int); event B(v int); event C(v int); event D(); pattern begin(\"s0\").of(A).oneOrMore().followedBy(\"s1\")
.of(D).where(first(\"s0\").v > 5).notFollowedBy(\"n0\").where(count(\"s0\") < 1).where(sum(\"s0\".v) == 1)
.notNext(\"n1\").of(A).followedByAny(\"s2\").of(D).notNext(\"n2\").notNext(\"n3\").of(C).where(count(\"s2\") < 1)
.followedBy(\"s3\").of(D).times(2).consecutive(); skip to_last(\"s3\");\n",
        input: b"A,3,0\nD,4\n",
        sizes: &[1, 1, 1, 1, 1, 1],
    },
    Row {
        lag: Some(3),
        file: b"event A(v int); event B(v int); event C(v int); event D(); pattern begin(\"s0\").of(B).timesOrMore(2).optional()
.followedBy(\"s1\").where(sum(\"s1\".v) < 0).oneOrMore().allowCombinations().until(v < min(\"s1\".v)).optional()
.followedByAny(\"s2\").of(C).where(count(\"s1\") < 1).oneOrMore().notFollowedBy(\"n0\").of(C)
.where(!(v == sum(\"s0\".v))).where(v < min(\"s2\".v)).notFollowedBy(\"n1\").of(C).next(\"s3\").where(!(v == 0))
.times(2,3).allowCombinations().within(3); skip to_next;\n",
        input: b"B,2,3\nA,3,3\nD,3\n@,4\nA,6,1\nA,9,3\n",
        sizes: &[
            0, 0, 0, 0, 0, 0, 1, 1, 1, 1, 1, 1, 1, 1, 1, 1, 1, 1, 0, 0, 0, 0, 0, 0, 0, 0, 0,
        ],
    },
    Row {
        lag: Some(1),
        file: b"event A(v int); event B(v int); event C(v int); event D(); pattern begin(\"s0\").where(count(\"s0\") < 1)
.or(!(sum(\"s0\".v) > 4)).optional().followedByAny(\"s1\").of(B).where(v > last(\"s0\").v).notFollowedBy(\"n0\").of(D)
.followedByAny(\"s2\").of(B).within(5); skip to_next;\n",
        input: b"@,-1\n@,0\nC,2,3\nB,5,2\nC,\"5\",4\n\"D\",3\n",
        sizes: &[0, 0, 0, 0, 0, 0, 1, 1, 1, 1, 1, 1, 2, 2, 2, 3, 3, 3],
    },
];

const NINTH: [Row; 10] = [
    Row {
        lag: None,
        file: b"event A(v int); event B(v int); event C(v int); event D(); pattern begin(\"s0\").of(D).where(count(\"s0\") < 1)
.notNext(\"n0\").of(B).where(v == 0).followedBy(\"s1\").of(C).where(count(\"s1\") < 2).followedBy(\"s2\").of(A)
.where(count(\"s2\") < 2).times(1,1).optional(); skip past_last;\n",
        input: b"C,3,\"3\"\nA,3,4\nD,0\n\"C\",5,\"3\"\nA,6,1\n\"D\",6\nB,10,1\n@,14\n\"B\",12,3\n",
        sizes: &[
            1, 1, 1, 0, 0, 0, 0, 0, 0, 0, 0, 0, 0, 0, 0, 1, 1, 1, 1, 1, 1, 1, 1, 1,
        ],
    },
    Row {
        lag: Some(3),
        file: b"event A(v int); event B(v int); event C(v int); event D(); pattern begin(\"s0\").of(B).where(count(\"s0\") < 1)
.where(count(\"s0\") < 1).times(3).next(\"s1\").followedBy(\"s2\").of(B).where(count(\"s0\") < 2).timesOrMore(2)
.optional().within(6).withinGap(2); skip to_next;\n",
        input: b"\"C\",-4,1\nA,2,1\nB,2,4\n",
        sizes: &[0, 0, 0, 0, 0, 0, 0, 0, 0, 0, 0, 0, 1, 1, 1],
    },
    Row {
        lag: None,
        file: b"event A(v int); event B(v int); event C(v int); event D(); pattern begin(\"s0\").of(A).times(2,4).next(\"s1\").of(B)
.where(v == sum(\"s0\".v)).where(max(\"s1\".v) == 2).next(\"s2\").where(min(\"s2\".v) < 2).timesOrMore(2)
.allowCombinations().followedBy(\"s3\").of(B).within(2); skip none;\n",
        input: b"C,\"2\",1\nB,1,2\n\"A\",3,0\n\"A\",5,3\nD,5\nA,5,2\n",
        sizes: &[0, 0, 0, 0, 0, 0, 1, 1, 1, 1, 1, 1, 1, 1, 1, 2, 3, 3],
    },
    Row {
        lag: Some(3),
        file: b"event A(v int); event B(v int); event C(v int); event D(); pattern begin(\"s0\").of(C).where(count(\"s0\") < 2)
.times(1,3).allowCombinations().withinGap(2); skip none;\n",
        input: b"D,-1\nA,2,3\nC,1,3\nB,5,\"3\"\n",
        sizes: &[
            0, 0, 0, 0, 0, 0, 0, 0, 0, 1, 1, 1, 1, 1, 1, 1, 1, 1, 0, 0, 0,
        ],
    },
    Row {
        lag: Some(0),
        file: b"event A(v int); event B(v int); event C(v int); event D(); pattern begin(\"s0\").of(A).where(v < last(\"s0\").v)
.or(v < 1).optional().followedByAny(\"s1\").of(B).where(min(\"s1\".v) == 2).followedBy(\"s2\").of(C).times(3)
.allowCombinations().followedBy(\"s3\").of(A).where(count(\"s0\") < 1).times(1).consecutive(); skip past_last;\n",
        input: b"C,-3,2\nA,1,0\n@,-1\nD,2\nB,3,\"3\"\nB,3,1\nC,5,2\nB,7,1\nB,7,2\n",
        sizes: &[
            0, 0, 0, 0, 0, 0, 0, 0, 0, 1, 1, 1, 1, 1, 1, 1, 1, 1, 1, 1, 1, 1, 1, 1, 1, 1, 1, 1, 1,
            1, 1, 1, 1, 1, 1, 1, 1, 1, 1, 1, 1, 1,
        ],
    },
    Row {
        lag: None,
        file: b"event A(v int); event B(v int); event C(v int); event D(); pattern begin(\"s0\").of(D).where(count(\"s0\") < 2).times(3)
.allowCombinations().followedBy(\"s1\").of(B).where(!(v > min(\"s1\".v))).withinGap(3); skip to_next;\n",
        input: b"D,-2\n",
        sizes: &[1, 1, 1],
    },
    Row {
        lag: None,
        file: b"event A(v int); event B(v int); event C(v int); event D(); pattern begin(\"s0\").of(D).next(\"s1\").of(C)
.where(count(\"s0\") < 2).oneOrMore().until(last(\"s1\").v > 4).notNext(\"n0\").of(D).notFollowedBy(\"n1\").of(C)
.where(first(\"s1\").v > 1).or(v > sum(\"s1\".v)).within(2); skip to_first(\"s1\");\n",
        input: b"D,0\nA,2,0\nC,2,1\nA,4,1\n\"B\",\"3\",1\nC,7,4\nB,7,2\nA,8,3\n",
        sizes: &[
            1, 1, 1, 0, 0, 0, 0, 0, 0, 0, 0, 0, 0, 0, 0, 0, 0, 0, 0, 0, 0, 0, 0, 0,
        ],
    },
    Row {
        lag: Some(1),
        file: b"event A(v int); event B(v int); event C(v int); event D(); pattern begin(\"s0\").of(C).optional().followedByAny(\"s1\")
.where(v != 4).or(last(\"s1\").v == 5).times(2,3).optional().followedBy(\"s2\").of(D).oneOrMore().allowCombinations()
.optional();\n",
        input: b"C,4,2\nB,7,4\nA,5,2\n",
        sizes: &[0, 0, 0, 1, 2, 2, 1, 2, 2, 1, 2, 2],
    },
    Row {
        lag: None,
        file: b"event A(v int); event B(v int); event C(v int); event D(); pattern begin(\"s0\").of(A).where(first(\"s0\").v > 0)
.or(count(\"s0\") < 1).optional().next(\"s1\").of(A).where(v == first(\"s0\").v).where(count(\"s0\") < 1).timesOrMore(2)
.consecutive().until(count(\"s0\") < 2).notNext(\"n0\").of(C).where(sum(\"s0\".v) > 4).or(first(\"s1\").v > 5)
.notFollowedBy(\"n1\").of(A).where(min(\"s1\".v) < 3).followedBy(\"s2\").of(C).oneOrMore().allowCombinations()
.optional().within(1);\n",
        input: b"C,1,1\nA,-2,0\n@,0\nB,3,3\n",
        sizes: &[1, 1, 1, 0, 0, 0, 0, 0, 0, 0, 0, 0],
    },
    Row {
        lag: None,
        file: b"event A(v int); event B(v int); event C(v int); event D(); pattern begin(\"s0\").of(C).where(v > 0).or(v == 3).times(2)
.next(\"s1\").of(A).where(v < 4).oneOrMore().next(\"s2\").of(A).times(3); skip past_last;\n",
        input: b"C,2,4\nB,4,2\nC,\"4\",3\nD,5\nA,4,2\nA,3,4\nB,\"8\",1\nB,9,4\n",
        sizes: &[
            1, 1, 1, 1, 1, 1, 1, 1, 1, 2, 3, 3, 3, 4, 4, 3, 4, 4, 3, 4, 4, 3, 4, 4,
        ],
    },
];

const TENTH: [Row; 10] = [
    Row {
        lag: None,
        file: b"event A(v int); event B(v int); event C(v int); event D(); pattern begin(\"s0\").of(C).followedBy(\"s1\").of(B)
.where(first(\"s0\").v == 0).or(v == last(\"s0\").v).followedByAny(\"s2\").of(D).where(!(count(\"s0\") < 2))
.notFollowedBy(\"n0\").of(C).within(5); skip to_last(\"s0\");\n",
        input: b"\"B\",1,2\n\"@\",-2\n@,0\nC,3,\"0\"\nB,0,1\nD,6\n",
        sizes: &[0, 0, 0, 0, 0, 0, 0, 0, 0, 1, 1, 1, 1, 1, 1],
    },
    Row {
        lag: Some(0),
        file: b"event A(v int); event B(v int); event C(v int); event D(); pattern begin(\"s0\").of(D).oneOrMore().until(v == 0)
.optional().followedBy(\"s1\").of(B).where(v == 3).timesOrMore(3).until(count(\"s1\") < 2).optional().followedBy(\"s2\")
.of(B).timesOrMore(3).optional().within(7).withinGap(3); skip to_last(\"s1\");\n",
        input: b"C,-3,\"3\"\nC,2,2\nB,3,2\nB,2,\"4\"\nB,7,4\nA,7,0\nA,8,4\n",
        sizes: &[
            0, 0, 0, 0, 0, 0, 0, 0, 0, 0, 0, 0, 0, 0, 0, 1, 1, 1, 0, 0, 0, 1, 1, 1, 1, 1, 1, 1, 1,
            1, 1, 1, 1,
        ],
    },
    Row {
        lag: Some(3),
        file: b"event A(v int); event B(v int); event C(v int); event D(); pattern begin(\"s0\").of(B).followedBy(\"s1\").of(A)
.where(min(\"s1\".v) > 2).times(2).consecutive().notFollowedBy(\"n0\").of(D).where(sum(\"s0\".v) < 3).notNext(\"n1\")
.of(D).where(count(\"s1\") < 1).followedBy(\"s2\").of(A).followedBy(\"s3\").of(A).where(last(\"s3\").v < 3)
.optional(); skip past_last;\n",
        input: b"A,3,0\nB,4,0\n@,4\n",
        sizes: &[0, 0, 0, 0, 0, 0, 0, 0, 0, 1, 1, 1, 1, 1, 1],
    },
    Row {
        lag: None,
        file: b"event A(v int); event B(v int); event C(v int); event D(); pattern begin(\"s0\").of(A).followedByAny(\"s1\").of(B)
.optional().followedBy(\"s2\").of(B).where(count(\"s2\") < 2).optional().followedBy(\"s3\").of(B)
.times(1); skip to_first(\"s2\");\n",
        input: b"B,2,\"2\"\nA,3,3\nA,6,4\nC,8,3\n",
        sizes: &[0, 0, 0, 1, 1, 1, 2, 2, 2, 2, 2, 2],
    },
    Row {
        lag: None,
        file: b"event A(v int); event B(v int); event C(v int); event D(); pattern begin(\"s0\").of(C).where(!(first(\"s0\").v < 4))
.times(1).optional().next(\"s1\").of(B).where(v < last(\"s0\").v).followedByAny(\"s2\").of(A).times(3,5)
.allowCombinations().optional().within(7);\n",
        input: b"@,-6\nC,0,3\nA,2,3\nB,4,4\nA,3,1\nD,7\n@,5\nA,5,2\nA,9,1\n",
        sizes: &[
            0, 0, 0, 1, 1, 1, 0, 0, 0, 0, 0, 0, 0, 0, 0, 0, 0, 0, 0, 0, 0, 0, 0, 0,
        ],
    },
    Row {
        lag: None,
        file: b"event A(v int); event B(v int); event C(v int); event D(); pattern begin(\"s0\").of(A).where(count(\"s0\") < 2)
.or(v == sum(\"s0\".v)).followedBy(\"s1\").where(sum(\"s1\".v) > 3).times(1,1).followedByAny(\"s2\").of(C).where(v != 4)
.next(\"s3\").of(A).where(v == 3).oneOrMore().optional().withinGap(2); skip to_last(\"s0\");\n",
        input: b"B,1,2\n@,1\nD,3\nA,5,\"1\"\nA,4,1\n@,8\nA,9,1\nB,7,3\nD,10\n",
        sizes: &[
            0, 0, 0, 0, 0, 0, 0, 0, 0, 1, 1, 1, 2, 2, 2, 0, 0, 0, 1, 1, 1, 1, 1, 1,
        ],
    },
    Row {
        lag: Some(1),
        file: b"event A(v int); event B(v int); event C(v int); event D(); pattern begin(\"s0\").of(A).next(\"s1\").of(B).times(1,3)
.allowCombinations().optional().withinGap(4);\n",
        input: b"\"B\",0,3\nB,2,4\nB,3,0\nA,2,0\nB,6,3\nA,9,3\nA,10,0\nA,11,0\n",
        sizes: &[
            0, 0, 0, 0, 0, 0, 0, 0, 0, 0, 0, 0, 0, 0, 0, 1, 1, 1, 2, 2, 2, 2, 2, 2, 3, 3, 3, 3, 3,
            3, 3, 3, 3, 4, 4, 4, 4, 4, 4, 1, 1, 1, 1, 1, 1,
        ],
    },
    Row {
        lag: Some(1),
        file: b"event A(v int); event B(v int); event C(v int); event D(); pattern begin(\"s0\").of(B).where(count(\"s0\") < 1)
.where(count(\"s0\") < 2).times(3).consecutive().notFollowedBy(\"n0\").of(A).followedByAny(\"s1\")
.where(v == sum(\"s1\".v)).times(3).optional().followedBy(\"s2\").of(D).where(count(\"s1\") < 2)
.or(!(count(\"s2\") < 1)).timesOrMore(1).consecutive().until(v < sum(\"s1\".v)).within(2); skip to_first(\"s0\");\n",
        input: b"A,2,1\nB,4,4\n",
        sizes: &[0, 0, 0, 0, 0, 0, 0, 0, 0, 1, 1, 1],
    },
    Row {
        lag: Some(1),
        file: b"event A(v int); event B(v int); event C(v int); event D(); pattern begin(\"s0\").of(A).oneOrMore()
.within(6); skip none;\n",
        input: b"C,0,0\nD,2\nD,\"3\"\n@,3\nA,7,3\nC,5,1\nC,\"8\",2\nB,6,3\nA,10,3\n",
        sizes: &[
            0, 0, 0, 0, 0, 0, 0, 0, 0, 0, 0, 0, 0, 0, 0, 0, 0, 0, 0, 0, 0, 0, 0, 0, 0, 0, 0, 1, 1,
            1, 1, 1, 1, 1, 1, 1, 2, 2, 3,
        ],
    },
    Row {
        lag: None,
        file: b"event A(v int); event B(v int); event C(v int); event D(); pattern begin(\"s0\").of(C).where(count(\"s0\") < 1)
.followedBy(\"s1\").of(C).where(count(\"s1\") < 1).within(5); skip to_first(\"s0\");\n",
        input: b"C,-1,4\nB,3,4\nA,3,3\n",
        sizes: &[1, 1, 1, 1, 1, 1, 1, 1, 1],
    },
];

fn words(lag: Option<u64>) -> &'static [&'static str] {
    match lag {
        None => &["run", "p"],
        Some(0) => &["run", "p", "--lag=0"],
        Some(1) => &["run", "p", "--lag=1"],
        Some(_) => &["run", "p", "--lag=3"],
    }
}

fn are_sizes(seen: &[Held], sizes: &[u64]) -> bool {
    if 3 * seen.len() != sizes.len() {
        return false;
    }
    for (held, size) in seen.iter().zip(sizes.chunks_exact(3)) {
        if [held.events, held.nodes, held.edges].as_slice() != size {
            return false;
        }
    }
    true
}

// Whether the gauge is shown the sizes of the row.
fn shows(rt: &HostRuntime, row: &Row) -> Result<bool, NoMemory> {
    let alloc = rt.alloc();
    let case = Case {
        name: "",
        words: words(row.lag),
        file: row.file,
        input: row.input,
        unread: 0,
        room: 65536,
        status: 0,
        output: b"",
        notes: b"",
    };
    let bytes = ByteList::from_slice(alloc, row.input)?;
    let mut input = MemorySource::new(bytes, 4096, CallList::new(alloc));
    let mut output = MemorySink::new(alloc, case.room, 4096, CallList::new(alloc))?;
    let mut notes = MemorySink::new(alloc, 100, 100, CallList::new(alloc))?;
    let mut gauge = MemoryGauge::new(alloc);
    let status = gauged_over(rt, &case, &mut input, &mut output, &mut notes, &mut gauge)?;
    Ok(status == 0 && are_sizes(gauge.seen().as_slice(), row.sizes))
}

fn are_shown(rt: &HostRuntime, rows: &[Row]) -> Result<bool, NoMemory> {
    for row in rows {
        if !shows(rt, row)? {
            return Ok(false);
        }
    }
    Ok(true)
}

#[test]
fn first_ten(rt: HostRuntime) -> Result<(), Fail> {
    assert!(rt; are_shown(&rt, &FIRST)?);
    Ok(())
}

#[test]
fn second_ten(rt: HostRuntime) -> Result<(), Fail> {
    assert!(rt; are_shown(&rt, &SECOND)?);
    Ok(())
}

#[test]
fn third_ten(rt: HostRuntime) -> Result<(), Fail> {
    assert!(rt; are_shown(&rt, &THIRD)?);
    Ok(())
}

#[test]
fn fourth_ten(rt: HostRuntime) -> Result<(), Fail> {
    assert!(rt; are_shown(&rt, &FOURTH)?);
    Ok(())
}

#[test]
fn fifth_ten(rt: HostRuntime) -> Result<(), Fail> {
    assert!(rt; are_shown(&rt, &FIFTH)?);
    Ok(())
}

#[test]
fn sixth_ten(rt: HostRuntime) -> Result<(), Fail> {
    assert!(rt; are_shown(&rt, &SIXTH)?);
    Ok(())
}

#[test]
fn seventh_ten(rt: HostRuntime) -> Result<(), Fail> {
    assert!(rt; are_shown(&rt, &SEVENTH)?);
    Ok(())
}

#[test]
fn eighth_ten(rt: HostRuntime) -> Result<(), Fail> {
    assert!(rt; are_shown(&rt, &EIGHTH)?);
    Ok(())
}

#[test]
fn ninth_ten(rt: HostRuntime) -> Result<(), Fail> {
    assert!(rt; are_shown(&rt, &NINTH)?);
    Ok(())
}

#[test]
fn tenth_ten(rt: HostRuntime) -> Result<(), Fail> {
    assert!(rt; are_shown(&rt, &TENTH)?);
    Ok(())
}
