// Document 01's table, P1 to P12, and its whole case, run through the compiled library and proved. A record is a mark
// (SU a request, MV a move, EN on), worker, code, a and b; an expected answer is a number and a value.
#![tactic(auto, using(crate::proofs::Vectors::vectors))]

mod runs;

use answers::Answer;
use check::expect;
use page::Layout;
use runs::{answers, tagged, word};

fn main() {
    p1();
    p2();
    p3();
    p4();
    p5();
    p6();
    p7();
    p8();
    p9();
    p10();
    p11();
    p12();
    whole_case();
}

// Block 3 has address 96.
fn p1() {
    let layout = Layout { n: 63, bw: 4 };
    expect(layout.address(3) == 96);
}

// Word 99 splits into 96 and 3.
fn p2() {
    expect(words::masked_ptr_delay_get_ptr(99) == 96);
    expect(words::masked_ptr_delay_get_delay(99) == 3);
}

// Tag 1 on 98 gives 97.
#[tactic(auto, unfolding(words::specs::Tagged::set_delay_of))]
fn p3() {
    let tagged = words::masked_ptr_delay_set_delay(98, 1);
    expect(tagged == Ok(97));
    expect(Answer::from(tagged).number == 0);
    expect(Answer::from(tagged).value == 97);
}

// Own 6, 5 and got 9, 8: append answers 2, and own is popped as 9, 8, 6, 5.
fn p4() {
    let run = b"\
        SU\x00\x01\x05\0\0\0\
        SU\x00\x01\x06\0\0\0\
        SU\x01\x06\x08\0\0\0\
        MV\x01\0\0\0\0\0\
        MV\x01\0\0\0\0\0\
        MV\x01\0\0\0\0\0\
        SU\x01\x06\x09\0\0\0\
        MV\x01\0\0\0\0\0\
        MV\x01\0\0\0\0\0\
        MV\x01\0\0\0\0\0\
        SU\x00\x07\0\0\0\0\
        MV\x00\0\0\0\0\0\
        MV\x00\0\0\0\0\0\
        SU\x00\x03\0\0\0\0\
        SU\x00\x02\0\0\0\0\
        SU\x00\x02\0\0\0\0\
        SU\x00\x02\0\0\0\0\
        SU\x00\x02\0\0\0\0";
    let expected = b"\
        \0\0\0\0\
        \x01\0\x01\0\x01\0\0\0\
        \x01\0\x01\0\x01\0\0\0\
        \x01\0\x01\0\0\x09\
        \0\x02\
        \0\x09\0\x08\0\x06\0\x05";
    expect(answers(run, expected));
}

// Got empty: append answers 0, and own stays.
fn p5() {
    let run = b"\
        SU\x00\x01\x07\0\0\0\
        SU\x00\x03\0\0\0\0\
        SU\x00\x02\0\0\0\0";
    expect(answers(run, b"\0\0\0\0\0\x07"));
}

// Extend by 3 from 3 on own 7: links 128, 160, 224, and own is popped as 3, 4, 5, 7.
fn p6() {
    let run = b"\
        SU\x00\x01\x07\0\0\0\
        SU\x00\x04\x03\0\x03\0\
        SU\x00\x02\0\0\0\0\
        SU\x00\x02\0\0\0\0\
        SU\x00\x02\0\0\0\0\
        SU\x00\x02\0\0\0\0";
    expect(answers(run, b"\0\0\0\x03\0\x03\0\x04\0\x05\0\x07"));
    expect(word(run, 12) == 128);
    expect(word(run, 16) == 160);
    expect(word(run, 20) == 224);
}

// Extend by 0: 4.
fn p7() {
    let run = b"\
        SU\x00\x01\x07\0\0\0\
        SU\x00\x04\x03\0\0\0";
    expect(answers(run, b"\0\0\x04\0"));
}

// Extend from 62 by 3: 4; by 2 it is done.
fn p8() {
    let run = b"\
        SU\x00\x04\x3E\0\x03\0\
        SU\x00\x04\x3E\0\x02\0";
    expect(answers(run, b"\x04\0\0\x02"));
}

// Take of T = 99, block 3 alone, as it stands after 8 records: value 3, and T = 3.
fn p9() {
    let run: &[u8] = b"\
        EN\0\0\0\0\0\0\
        SU\x00\x0A\x03\0\0\0\
        MV\x00\0\0\0\0\0\
        MV\x00\0\0\0\0\0\
        SU\x01\x08\x03\0\0\0\
        MV\x01\0\0\0\0\0\
        MV\x01\0\0\0\0\0\
        MV\x01\0\0\0\0\0\
        SU\x00\x09\0\0\0\0\
        MV\x00\0\0\0\0\0";
    expect(answers(
        run,
        b"\0\0\x01\0\x01\0\0\0\x01\0\x01\0\x01\0\0\x03\x01\0\0\x03",
    ));
    expect(tagged(&run[..64]) == 99);
    expect(tagged(run) == 3);
}

// Request 11 on tag 2: load, exchange, value 1, tag 0.
fn p10() {
    let run = b"\
        EN\0\0\0\0\0\0\
        SU\x00\x0A\x02\0\0\0\
        MV\x00\0\0\0\0\0\
        MV\x00\0\0\0\0\0\
        SU\x03\x0B\0\0\0\0\
        MV\x03\0\0\0\0\0\
        MV\x03\0\0\0\0\0";
    expect(answers(run, b"\0\0\x01\0\x01\0\0\0\x01\0\x01\0\0\x01"));
    expect(tagged(run) == 0);
}

// Request 11 on tag 1: the fourth load answers 1, the fifth ends with value 0.
fn p11() {
    let run = b"\
        EN\0\0\0\0\0\0\
        SU\x00\x0A\x01\0\0\0\
        MV\x00\0\0\0\0\0\
        MV\x00\0\0\0\0\0\
        SU\x03\x0B\0\0\0\0\
        MV\x03\0\0\0\0\0\
        MV\x03\0\0\0\0\0\
        MV\x03\0\0\0\0\0\
        MV\x03\0\0\0\0\0\
        MV\x03\0\0\0\0\0";
    expect(answers(
        run,
        b"\0\0\x01\0\x01\0\0\0\x01\0\x01\0\x01\0\x01\0\x01\0\0\0",
    ));
}

// Insert of a block in a hand: 9.
fn p12() {
    let run = b"\
        SU\x01\x06\x09\0\0\0\
        SU\x00\x01\x09\0\0\0";
    expect(answers(run, b"\x01\0\x09\0"));
}

// The whole case.
fn whole_case() {
    let run = b"\
        SU\x00\x01\x05\0\0\0\
        SU\x00\x01\x06\0\0\0\
        SU\x01\x06\x09\0\0\0\
        SU\x02\x06\x09\0\0\0\
        MV\x01\0\0\0\0\0\
        MV\x01\0\0\0\0\0\
        MV\x01\x01\0\0\0\0\
        MV\x01\0\0\0\0\0\
        MV\x01\0\0\0\0\0\
        MV\x01\0\0\0\0\0\
        SU\x00\x07\0\0\0\0\
        MV\x00\0\0\0\0\0\
        MV\x00\0\0\0\0\0\
        SU\x00\x03\0\0\0\0\
        SU\x00\x02\0\0\0\0";
    let expected = b"\
        \0\0\0\0\x01\0\x09\0\
        \x01\0\x01\0\x01\0\x01\0\x01\0\0\0\
        \x01\0\x01\0\0\x09\
        \0\x01\0\x09";
    expect(answers(run, expected));
}
