//! Laws of the definitions: each function has an empty body, and its clause is the law.

ghost use Rattle.syn_netlist.specs.Faults.{AnsweredIsCircle, CheckedHasFunction, CheckedHasNoFault, OrderableHasNoCircle, OrderableReachesNoCircle, PutIsChecked, TableOrderPuts};
ghost use Rattle.syn_netlist.specs.Meaning.{FunctionFromSame, OneFunction, SameFromFunction, SameIsSymmetric, SameIsTransitive};
ghost use Rattle.syn_netlist.specs.Order.{OrderKeepsFunction, OrderableHasFunction, OrderedHasFunction, OrderedHasOne};
ghost use Rattle.syn_netlist.specs.Worked.{Worked};

/// Two netlists with the same frame and the same function mean the same.
pub fn same_from_function()
    ensures { SameFromFunction }
{}

/// What means the same has the same function.
pub fn function_from_same()
    ensures { FunctionFromSame }
{}

/// Same meaning is transitive.
pub fn same_is_transitive()
    ensures { SameIsTransitive }
{}

/// Same meaning is symmetric.
pub fn same_is_symmetric()
    ensures { SameIsSymmetric }
{}

/// A netlist has at most one function on the values that its sources can have.
pub fn one_function()
    ensures { OneFunction }
{}

/// An ordered netlist has, for each choice of source values, a consistent valuation, and its defined names have one value each.
pub fn ordered_has_one()
    ensures { OrderedHasOne }
{}

/// An ordered netlist whose observed signals are defined has its evaluation as its function.
pub fn ordered_has_function()
    ensures { OrderedHasFunction }
{}

/// The order of its tables doesn't change a netlist's function.
pub fn order_keeps_function()
    ensures { OrderKeepsFunction }
{}

/// A netlist whose tables can be put in order, and whose observed signals are defined, has a function.
pub fn orderable_has_function()
    ensures { OrderableHasFunction }
{}

/// Tables that can be put in order don't read each other in a circle.
pub fn orderable_has_no_circle()
    ensures { OrderableHasNoCircle }
{}

/// Where tables can be put in order, no circle is reached from any name.
pub fn orderable_reaches_no_circle()
    ensures { OrderableReachesNoCircle }
{}

/// The answered circle is a circle: its names are outputs of tables each of which reads the next.
pub fn answered_is_circle()
    ensures { AnsweredIsCircle }
{}

/// Numbers of the tables, each once and below those that it reads, put a netlist's tables in order.
pub fn table_order_puts()
    ensures { TableOrderPuts }
{}

/// Where numbers put the tables in order, the netlist has no fault.
pub fn put_is_checked()
    ensures { PutIsChecked }
{}

/// A netlist without a fault has none but want of memory.
pub fn checked_has_no_fault()
    ensures { CheckedHasNoFault }
{}

/// A netlist without a fault has a function.
pub fn checked_has_function()
    ensures { CheckedHasFunction }
{}

/// What the definitions give on worked netlists.
pub fn worked_netlists()
    ensures { Worked }
{}
