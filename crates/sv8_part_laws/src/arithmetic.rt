//! Examples that are worked out by hand, each a function that does nothing and whose contract has them.

ghost use Rattle.std.specs.Prelude.{◌≡◌, true, false, Some, None};
ghost use Rattle.sv8_alu.specs.Arithmetic.{sum_of, difference_of, tagged_sum_of, tagged_difference_of, product_of, signed_product_of, quotient_of, signed_quotient_of, step_of, shifted_by, logic_of, logical_answer};
ghost use Rattle.sv8_part_laws.specs.ArithmeticExamples.{codes, answer};
ghost use Rattle.sv8_alu.specs.declared.ShiftForm.TheVariants.{LeftLogical, RightLogical, RightArithmetic};
ghost use Rattle.sv8_alu.specs.declared.Logical.TheVariants.{And, Andn, Orn, Xor, Xnor};

/// Sums and differences with N, Z, V and C. Appendix B.13 to B.16.
///
/// - `past_most`: the largest positive word and 1 are the least negative one, out of range.
/// - `carries`: -1 and 1 are 0, with a carry. `both`: twice the least word is 0, out of range and with a carry.
/// - `with_carry`: -1 and -1 and the carry are -1.
/// - `borrows`, `past_least`, `equal`, `with_borrow`: the same of differences.
/// - `tags` to `second_tag`: an operand that is no multiple of 4 sets V.
#[tactic(auto, unfolding(sv8_model::specs::Words::signed))]
pub fn worked_sums()
    ensures past_most { sum_of 0x7FFFFFFF 1 false ≡ answer 0x80000000 (codes true false true false) }
    ensures carries { sum_of 0xFFFFFFFF 1 false ≡ answer 0 (codes false true false true) }
    ensures both { sum_of 0x80000000 0x80000000 false ≡ answer 0 (codes false true true true) }
    ensures with_carry { sum_of 0xFFFFFFFF 0xFFFFFFFF true ≡ answer 0xFFFFFFFF (codes true false false true) }
    ensures borrows { difference_of 0 1 false ≡ answer 0xFFFFFFFF (codes true false false true) }
    ensures past_least { difference_of 0x80000000 1 false ≡ answer 0x7FFFFFFF (codes false false true false) }
    ensures equal { difference_of 5 5 false ≡ answer 0 (codes false true false false) }
    ensures with_borrow { difference_of 0 0xFFFFFFFF true ≡ answer 0 (codes false true false true) }
    ensures tags { tagged_sum_of 4 8 ≡ answer 12 (codes false false false false) }
    ensures first_tag { tagged_sum_of 1 4 ≡ answer 5 (codes false false true false) }
    ensures second_tag { tagged_difference_of 8 6 ≡ answer 2 (codes false false true false) }
{}

/// Products, and the multiply step. Appendix B.17 and B.18.
///
/// - `largest`: (2^32 - 1)^2 is FFFFFFFE 00000001. `ones`: -1 times -1 is 1.
/// - `high_bit`: 80000000 times 2 is 00000001 00000000; `signed_high_bit`: as signed words it is -2^32.
/// - `adds`: with bit 0 of Y set, half of 6 and the operand 5 are 8; `next_bit`: bit 0 of 6 goes into Y.
/// - `passes`: with bit 0 of Y clear nothing is added, and N other than V comes in from the left.
#[tactic(auto, unfolding(sv8_model::specs::Words::signed))]
pub fn worked_products()
    ensures largest { product_of 0xFFFFFFFF 0xFFFFFFFF ≡ record { high = 0xFFFFFFFE; low = answer 1 (codes false false false false) } }
    ensures ones { signed_product_of 0xFFFFFFFF 0xFFFFFFFF ≡ record { high = 0; low = answer 1 (codes false false false false) } }
    ensures high_bit { product_of 0x80000000 2 ≡ record { high = 1; low = answer 0 (codes false true false false) } }
    ensures signed_high_bit { signed_product_of 0x80000000 2 ≡ record { high = 0xFFFFFFFF; low = answer 0 (codes false true false false) } }
    ensures adds { step_of 6 5 1 (codes false false false false) ≡ record { sum = answer 8 (codes false false false false); y = 0 } }
    ensures passes { step_of 1 5 2 (codes true false false false) ≡ record { sum = answer 0x80000000 (codes true false false false); y = 0x80000001 } }
{}

/// Quotients of the words Y and r[rs1]. Appendix B.19.
///
/// - `too_large`: 2^32 by 1 is no word, so the largest one, with N and V.
/// - `too_large_signed`: -2^31 by -1 is no signed word, so the largest positive one, with V alone.
/// - `no_quotient` and `no_signed_quotient`: a divisor of 0.
/// - `rounded` and `rounded_signed`: 7 by 2 is 3, and -7 by 2 is -3.
/// - `least`: -2^63 by -1, which 64 bits do not hold.
#[tactic(auto, unfolding(sv8_model::specs::Words::signed))]
pub fn worked_quotients()
    ensures too_large { quotient_of 1 0 1 ≡ Some (answer 0xFFFFFFFF (codes true false true false)) }
    ensures too_large_signed { signed_quotient_of 0xFFFFFFFF 0x80000000 0xFFFFFFFF ≡ Some (answer 0x7FFFFFFF (codes false false true false)) }
    ensures no_quotient { quotient_of 1 0 0 ≡ None }
    ensures no_signed_quotient { signed_quotient_of 0xFFFFFFFF 0x80000000 0 ≡ None }
    ensures rounded { quotient_of 0 7 2 ≡ Some (answer 3 (codes false false false false)) }
    ensures rounded_signed { signed_quotient_of 0xFFFFFFFF 0xFFFFFFF9 2 ≡ Some (answer 0xFFFFFFFD (codes true false false false)) }
    ensures least { signed_quotient_of 0x80000000 0 0xFFFFFFFF ≡ Some (answer 0x7FFFFFFF (codes false false true false)) }
{}

/// Shifts and logical operations. Appendix B.11 and B.12.
///
/// - `left`, `right`, `sign`: bits that leave a word are lost, and the arithmetic shift copies bit 31.
/// - `count`: only the low five bits of a count of 33 count.
/// - `andn` to `xnor`: the second operand is complemented. `exclusive`: equal words give 0.
pub fn worked_bits()
    ensures left { shifted_by LeftLogical 0x80000001 1 ≡ 2 }
    ensures right { shifted_by RightLogical 0x80000000 31 ≡ 1 }
    ensures sign { shifted_by RightArithmetic 0x80000000 4 ≡ 0xF8000000 }
    ensures count { shifted_by LeftLogical 1 33 ≡ 2 }
    ensures and { logic_of And 0xFF00FF00 0x0FF00FF0 ≡ 0x0F000F00 }
    ensures andn { logical_answer Andn 0xFF00FF00 0x0FF00FF0 ≡ answer 0xF000F000 (codes true false false false) }
    ensures orn { logical_answer Orn 0 0xFFFFFFFF ≡ answer 0 (codes false true false false) }
    ensures exclusive { logical_answer Xor 0x12345678 0x12345678 ≡ answer 0 (codes false true false false) }
    ensures xnor { logical_answer Xnor 0x12345678 0x12345678 ≡ answer 0xFFFFFFFF (codes true false false false) }
{}
