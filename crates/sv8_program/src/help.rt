//! What the help of each program tells of the commands of the workbench.

/// What the help of a program tells behind the options: the commands of the workbench, a line each, and then what it is given, joined as one literal.
#[macro_export]
macro_rules! workbench_commands {
    ($more:literal) => {
        concat!(
            "Commands of a script, one a line (N is a step):
  edit A B COUNT      the COUNT lines that follow replace lines A to B of the source; B = A - 1 inserts before A
  poke N ADDR VALUE   at step N the word at ADDR gets this value
  unpoke N ADDR       clears what is poked at step N in the word at ADDR
  pokeb N ADDR VALUE  at step N the byte at ADDR gets this value
  unpokeb N ADDR      clears the poke of this byte at step N
  input N BYTES       at step N these bytes come in at the console
  uninput N           no bytes come in at step N
  irq N LEVEL         at step N an interrupt of this level, 1 to 15, is requested
  unirq N LEVEL       clears this request
  list                shows the listing
  regs N              shows the machine at step N
  mem N ADDR COUNT    shows COUNT words of RAM at step N from ADDR on
  out N               shows the bytes put out at the console below step N
  quit                ends the run
",
            $more
        )
    };
}
