//! What is true of the grammar and of `reading`, whatever the text, and some lines worked out.

ghost use Rattle.std.specs.Prelude.{◌≡◌, ℕ, List, Ok, Err, Some, codes, true, false, [], ◌∷◌, ◌++◌};
ghost use Rattle.sv8_isa.specs.declared.instr.ArithOp.TheVariants as arith;
ghost use Rattle.sv8_isa.specs.declared.instr.Cond.TheVariants as condition;
ghost use Rattle.sv8_isa.specs.declared.instr.MemoryOp.TheVariants as memory;
ghost use Rattle.sv8_isa.specs.declared.instr.ShiftOp.TheVariants as shift;
ghost use Rattle.sv8_isa.specs.declared.instr.StateRegister.TheVariants as state;
ghost use Rattle.sv8_statements.specs.declared.fault.LineFault.{LineFault};
ghost use Rattle.sv8_statements.specs.declared.fault.LineFault.TheVariants.{NotAscii, Syntax};
ghost use Rattle.sv8_statements.specs.declared.register.Register.TheVariants as r;
ghost use Rattle.sv8_statements.specs.declared.value.Expr.TheVariants as expr;
ghost use Rattle.sv8_statements.specs.declared.value.Imm.TheVariants as imm;
ghost use Rattle.sv8_statements.specs.declared.value.RegOrImm.TheVariants as source;
ghost use Rattle.sv8_statements.specs.declared.value.Upper.TheVariants as upper;
ghost use Rattle.sv8_statements.specs.declared.statement.Operation.TheVariants as operation;
ghost use Rattle.sv8_statements.specs.declared.statement.Instruction.TheVariants as instruction;
ghost use Rattle.sv8_statements.specs.declared.statement.Label.TheVariants as label;
ghost use Rattle.sv8_statements.specs.declared.statement.Motion.TheVariants as motion;
ghost use Rattle.sv8_statements.specs.declared.statement.Statement.TheVariants as statement;
ghost use Rattle.sv8_statements.specs.declared.statement.Stmt.{Stmt};
ghost use Rattle.sv8_statements.specs.declared.statement.Width.TheVariants as width;
ghost use Rattle.sv8_syntax.specs.Grammar.{ReadsAs, IsFault, line};
ghost use Rattle.sv8_statements.specs.Names.{Defines};
ghost use Rattle.sv8_syntax.specs.Reading.{reading};
ghost use Rattle.sv8_assembler_laws.specs.Worked.{value, states, instructs, AreRefused};

/// A text is read as one statement at most.
pub fn one_reading()
    ensures { (text : List ℕ) (s t : Stmt) → ReadsAs text s → ReadsAs text t → s ≡ t }
{}

/// What `reading` gives is what the grammar says, and its faults are those of the text.
pub fn reading_is_the_grammar()
    ensures read { (text : List ℕ) (s : Stmt) → reading text ≡ Ok s → ReadsAs text s }
    ensures written { (text : List ℕ) (s : Stmt) → ReadsAs text s → reading text ≡ Ok s }
    ensures fault { (text : List ℕ) (e : LineFault) → reading text ≡ Err e → IsFault text e }
    ensures defines { (text : List ℕ) (s : Stmt) → reading text ≡ Ok s → Defines s }
{}

/// Each kind of operand.
#[tactic(auto, unfolding(crate::proofs::OnLiterals::reading_on_literals))]
pub fn worked_operands()
    ensures registers { reading (codes "xorcc%i7 , %l3,%sp ! any gap") ≡ instructs (instruction.Format3 (operation.Arith arith.Xor true) r.O6 r.I7 (source.Register r.L3)) }
    ensures low { reading (codes "or %g1, %lo(x+4), %r30") ≡ instructs (instruction.Format3 (operation.Arith arith.Or false) r.I6 r.G1 (source.Immediate (imm.Low (expr.Plus (codes "x") 4)))) }
    ensures place { reading (codes "jmpl %l0 - 8, %o7") ≡ instructs (instruction.Format3 operation.Jmpl r.O7 r.L0 (value (expr.Minus 8))) }
    ensures bracketed { reading (codes "ld [%fp+-0x40], %l1") ≡ instructs (instruction.Format3 (operation.Memory memory.Ld) r.L1 r.I6 (value (expr.Minus 64))) }
    ensures after { reading (codes "std %g2,[8+%sp]") ≡ instructs (instruction.Format3 (operation.Memory memory.Std) r.G2 r.O6 (value (expr.Number 8))) }
    ensures alternate { reading (codes "lda [%g1+%o0]11, %g3") ≡ instructs (instruction.Alternate memory.Ld r.G3 r.G1 r.O0 11) }
    ensures high { reading (codes "sethi %hi(1f), %g1") ≡ instructs (instruction.Sethi (upper.High (expr.Name (codes "1f"))) r.G1) }
    ensures state { reading (codes "mov 5, %tbr") ≡ instructs (instruction.Format3 (operation.Write state.Tbr) r.G0 r.G0 (value (expr.Number 5))) }
{}

/// Branches, and forms that stand for others.
#[tactic(auto, unfolding(crate::proofs::OnLiterals::reading_on_literals))]
pub fn worked_instructions()
    ensures annulled { reading (codes "bne , a x") ≡ instructs (instruction.Branch condition.NotEqual true (expr.Name (codes "x"))) }
    ensures named_a { reading (codes "ba a") ≡ instructs (instruction.Branch condition.Always false (expr.Name (codes "a"))) }
    ensures call { reading (codes "call f, 0") ≡ instructs (instruction.Call (expr.Name (codes "f"))) }
    ensures call_register { reading (codes "call %l0") ≡ instructs (instruction.Format3 operation.Jmpl r.O7 r.L0 (source.Register r.G0)) }
    ensures trap { reading (codes "ta 3") ≡ instructs (instruction.Format3 (operation.Trap condition.Always) r.G0 r.G0 (value (expr.Number 3))) }
    ensures shift { reading (codes "sll %g1,31,%g2") ≡ instructs (instruction.Format3 (operation.Shift shift.Sll) r.G2 r.G1 (value (expr.Number 31))) }
    ensures not_alone { reading (codes "not %g1") ≡ instructs (instruction.Format3 (operation.Arith arith.Xnor false) r.G1 r.G1 (source.Register r.G0)) }
    ensures negated { reading (codes "neg %g1,%g2") ≡ instructs (instruction.Format3 (operation.Arith arith.Sub false) r.G2 r.G0 (source.Register r.G1)) }
    ensures tested { reading (codes "btst 4, %g1") ≡ instructs (instruction.Format3 (operation.Arith arith.And true) r.G0 r.G1 (value (expr.Number 4))) }
    ensures cleared { reading (codes "clrh [%g1]") ≡ instructs (instruction.Format3 (operation.Memory memory.Sth) r.G0 r.G1 (source.Register r.G0)) }
{}

/// Labels and directives.
#[tactic(auto, unfolding(crate::proofs::OnLiterals::reading_on_literals))]
pub fn worked_lines()
    ensures label { reading (codes "ret: ret") ≡ Ok (line (Some (label.Name (codes "ret"))) (Some (statement.Instruction (instruction.Format3 operation.Jmpl r.G0 r.I7 (value (expr.Number 8)))))) }
    ensures local { reading (9 ∷ codes "2 : nop") ≡ Ok (line (Some (label.Local 2)) (Some (statement.Instruction (instruction.Sethi (upper.Value (expr.Number 0)) r.G0)))) }
    ensures words { reading (codes ".word 0x1F,-1,1b - 8") ≡ states (statement.Data width.Word (expr.Number 31 ∷ expr.Minus 1 ∷ expr.Less (codes "1b") 8 ∷ [])) }
    ensures text { reading (codes ".ascii " ++ 34 ∷ codes "a" ++ 92 ∷ 110 ∷ 92 ∷ 34 ∷ 33 ∷ 34 ∷ []) ≡ states (statement.Ascii (97 ∷ 10 ∷ 34 ∷ 33 ∷ [])) }
    ensures moved { reading (codes ".align 8") ≡ states (statement.Motion motion.Align 8) }
    ensures defined { reading (codes ".equ limit, -3") ≡ states (statement.Equ (codes "limit") (expr.Minus 3)) }
    ensures set { reading (codes "set 1f, %g1") ≡ states (statement.Set (expr.Name (codes "1f")) r.G1) }
{}

/// Lines that are refused: for a token, a label, an annul bit, an operand, an escape, and a byte that is no text.
#[tactic(auto, unfolding(crate::proofs::OnLiterals::reading_on_literals))]
pub fn worked_refusals()
    ensures tokens { AreRefused (codes "mov 5x, %g1" ∷ codes "mov 01, %g1" ∷ codes "mov 0x, %g1" ∷ codes "mov 0X1, %g1" ∷ codes "mov 4294967296, %g1" ∷ codes "mov 5, % g1" ∷ codes "mov 5, %r01" ∷ codes "NOP" ∷ codes "nop 1fx" ∷ []) }
    ensures labels { AreRefused (codes "10: nop" ∷ codes "0x1: nop" ∷ codes "01: nop" ∷ codes "1f: nop" ∷ codes "1: 2: nop" ∷ codes ".equ 1f, 3" ∷ codes "mov %g1-1f, %g2" ∷ []) }
    ensures annulled { AreRefused (codes "add,a %g1, 1, %g2" ∷ codes "ba,a" ∷ codes "ba,a,x" ∷ codes "ba,b x" ∷ codes "ta,a 3" ∷ []) }
    ensures operands { AreRefused (codes "or %g0, %hi(x), %g1" ∷ codes "ta %lo(x)" ∷ codes "call 4+%g1" ∷ codes "ld [%g1]0, %g2" ∷ codes "lda [%g1+4]11, %g2" ∷ codes "mov %y, %psr" ∷ codes "inc %g1, %g2" ∷ codes "save 1" ∷ codes ".word" ∷ codes ".word 1," ∷ []) }
    ensures escape { reading (codes ".ascii " ++ 34 ∷ 92 ∷ 113 ∷ 34 ∷ []) ≡ Err Syntax }
    ensures byte { reading (codes "01 ! " ++ 128 ∷ []) ≡ Err NotAscii }
{}
