//! Every operation at the edges, against a table that another program made from the manual's text.

use crate::table::{LOGIC, PRODUCTS, QUOTIENTS, SHIFTS, STEPS, SUMS, TAGGED};
use sv8_alu::*;

/// The icc field as a number, with N the highest of its four bits.
fn field(icc: Icc) -> u32 {
    let n = if icc.n { 8 } else { 0 };
    let z = if icc.z { 4 } else { 0 };
    let v = if icc.v { 2 } else { 0 };
    let c = if icc.c { 1 } else { 0 };
    n + z + v + c
}

/// A result and its condition codes as two numbers.
fn shown(answer: Answer) -> [u32; 2] {
    [answer.value, field(answer.icc)]
}

#[test]
fn sums_and_differences(rt: HostRuntime) {
    for [x, y, c, sum, sum_codes, difference, codes] in SUMS.iter() {
        let carry = *c == 1;
        assert_eq!(rt;
            shown(add(*x, *y, carry)),
            [*sum, *sum_codes],
            "{x} + {y} + {c}"
        );
        assert_eq!(rt;
            shown(sub(*x, *y, carry)),
            [*difference, *codes],
            "{x} - {y} - {c}"
        );
    }
}

#[test]
fn tagged_sums_and_differences(rt: HostRuntime) {
    for [x, y, sum, sum_codes, difference, codes] in TAGGED.iter() {
        assert_eq!(rt; shown(tagged_add(*x, *y)), [*sum, *sum_codes], "{x} + {y}");
        assert_eq!(rt;
            shown(tagged_sub(*x, *y)),
            [*difference, *codes],
            "{x} - {y}"
        );
    }
}

#[test]
fn products(rt: HostRuntime) {
    for [
        x,
        y,
        high,
        low,
        codes,
        signed_high,
        signed_low,
        signed_codes,
    ] in PRODUCTS.iter() {
        let unsigned = unsigned_multiply(*x, *y);
        let signed = signed_multiply(*x, *y);
        assert_eq!(rt; unsigned.high, *high, "high of {x} * {y}");
        assert_eq!(rt; shown(unsigned.low), [*low, *codes], "{x} * {y}");
        assert_eq!(rt; signed.high, *signed_high, "signed high of {x} * {y}");
        assert_eq!(rt;
            shown(signed.low),
            [*signed_low, *signed_codes],
            "signed {x} * {y}"
        );
    }
}

#[test]
fn quotients(rt: HostRuntime) {
    for [y, x, divisor, value, codes, signed_value, signed_codes] in QUOTIENTS.iter() {
        let unsigned = unsigned_divide(*y, *x, *divisor);
        let signed = signed_divide(*y, *x, *divisor);
        assert_eq!(rt;
            unsigned.map(shown),
            Some([*value, *codes]),
            "{y}, {x} / {divisor}"
        );
        assert_eq!(rt;
            signed.map(shown),
            Some([*signed_value, *signed_codes]),
            "signed {y}, {x} / {divisor}"
        );
    }
}

#[test]
fn division_by_zero_has_no_quotient(rt: HostRuntime) {
    for word in [0, 1, 0x7FFF_FFFF, 0x8000_0000, 0xFFFF_FFFF] {
        assert!(rt; unsigned_divide(word, word, 0).is_none(), "{word}");
        assert!(rt; signed_divide(word, word, 0).is_none(), "{word}");
    }
}

#[test]
fn quotients_out_of_range(rt: HostRuntime) {
    let largest = unsigned_divide(1, 0, 1);
    assert_eq!(rt; largest.map(shown), Some([0xFFFF_FFFF, 0b1010]));
    let positive = signed_divide(0xFFFF_FFFF, 0x8000_0000, 0xFFFF_FFFF);
    assert_eq!(rt; positive.map(shown), Some([0x7FFF_FFFF, 0b0010]));
}

#[test]
fn multiply_steps(rt: HostRuntime) {
    for [x, operand, y, n, v, value, codes, new_y] in STEPS.iter() {
        let icc = Icc {
            n: *n == 1,
            z: false,
            v: *v == 1,
            c: false,
        };
        let step = multiply_step(*x, *operand, *y, icc);
        assert_eq!(rt; shown(step.sum), [*value, *codes], "{x}, {operand}, {y}");
        assert_eq!(rt; step.y, *new_y, "Y of {x}, {operand}, {y}");
    }
}

#[test]
fn shifts(rt: HostRuntime) {
    for [x, operand, left, right, arithmetic] in SHIFTS.iter() {
        let (x, operand) = (*x, *operand);
        assert_eq!(rt;
            shift(ShiftForm::LeftLogical, x, operand),
            *left,
            "{x} << {operand}"
        );
        assert_eq!(rt;
            shift(ShiftForm::RightLogical, x, operand),
            *right,
            "{x} >> {operand}"
        );
        assert_eq!(rt;
            shift(ShiftForm::RightArithmetic, x, operand),
            *arithmetic,
            "signed {x} >> {operand}"
        );
    }
}

#[test]
fn logical_operations(rt: HostRuntime) {
    let forms = [
        Logical::And,
        Logical::Andn,
        Logical::Or,
        Logical::Orn,
        Logical::Xor,
        Logical::Xnor,
    ];
    for row in LOGIC.iter() {
        for (i, form) in forms.iter().enumerate() {
            let want = [row[2 + 2 * i], row[3 + 2 * i]];
            assert_eq!(rt;
                shown(logic(*form, row[0], row[1])),
                want,
                "form {i} of {row:?}"
            );
        }
    }
}

/// The answers of a family's functions, one by one, worked out by hand from the manual's text.
#[test]
fn tagged_forms(rt: HostRuntime) {
    let plain = [TaggedForm::Add, TaggedForm::AddTrapping];
    for form in plain.iter() {
        assert_eq!(rt; tagged(*form, 4, 8).map(shown), Some([12, 0b0000]));
    }
    assert_eq!(rt;
        tagged(TaggedForm::Add, 4, 9).map(shown),
        Some([13, 0b0010])
    );
    assert!(rt; tagged(TaggedForm::AddTrapping, 4, 9).is_none());
    assert_eq!(rt;
        tagged(TaggedForm::Add, 0x7FFF_FFFC, 4).map(shown),
        Some([0x8000_0000, 0b1010])
    );
    assert!(rt; tagged(TaggedForm::AddTrapping, 0x7FFF_FFFC, 4).is_none());
    assert_eq!(rt; tagged(TaggedForm::Sub, 8, 8).map(shown), Some([0, 0b0100]));
    assert_eq!(rt;
        tagged(TaggedForm::SubTrapping, 8, 12).map(shown),
        Some([0xFFFF_FFFC, 0b1001])
    );
    assert_eq!(rt; tagged(TaggedForm::Sub, 3, 0).map(shown), Some([3, 0b0010]));
    assert!(rt; tagged(TaggedForm::SubTrapping, 3, 0).is_none());
    assert!(rt; tagged(TaggedForm::SubTrapping, 0x8000_0000, 4).is_none());
}

#[test]
fn signed_and_unsigned_products(rt: HostRuntime) {
    let unsigned = mul(Signedness::Unsigned, 0xFFFF_FFFE, 3);
    assert_eq!(rt; unsigned.high, 2);
    assert_eq!(rt; shown(unsigned.low), [0xFFFF_FFFA, 0b1000]);
    let signed = mul(Signedness::Signed, 0xFFFF_FFFE, 3);
    assert_eq!(rt; signed.high, 0xFFFF_FFFF);
    assert_eq!(rt; shown(signed.low), [0xFFFF_FFFA, 0b1000]);
}

#[test]
fn a_step_of_three_times_five(rt: HostRuntime) {
    let icc = Icc {
        n: true,
        z: false,
        v: false,
        c: true,
    };
    let step = mulscc(6, 5, 3, icc);
    assert_eq!(rt; shown(step.sum), [0x8000_0008, 0b1000]);
    assert_eq!(rt; step.y, 1);
}

#[test]
fn signed_and_unsigned_quotients(rt: HostRuntime) {
    let negative = divide(Signedness::Signed, 0xFFFF_FFFF, 0xFFFF_FFF8, 3);
    assert_eq!(rt; negative.map(shown), Some([0xFFFF_FFFE, 0b1000]));
    let small = divide(Signedness::Unsigned, 0, 100, 7);
    assert_eq!(rt; small.map(shown), Some([14, 0b0000]));
    let large = divide(Signedness::Unsigned, 7, 0, 7);
    assert_eq!(rt; large.map(shown), Some([0xFFFF_FFFF, 0b1010]));
    assert!(rt; divide(Signedness::Signed, 0, 1, 0).is_none());
    assert!(rt; divide(Signedness::Unsigned, 0, 1, 0).is_none());
}
