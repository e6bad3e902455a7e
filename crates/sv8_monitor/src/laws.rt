//! Laws of the definitions in `specs/`. Each stands as the contract of a function that does nothing.

ghost use Rattle.sv8_monitor.specs.Laws.{OrdersAlike, LinesAlike, ScriptsAlike};

/// To a script of the workbench's commands the monitor answers what the workbench does, and before stays as it is: to the
/// orders of the workbench, to lines of which none that begins an order is the monitor's, and to a whole script of such lines.
pub fn commands_are_answered_alike()
    ensures orders { OrdersAlike }
    ensures lines { LinesAlike }
    ensures scripts { ScriptsAlike }
{}
