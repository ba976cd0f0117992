//! The functions of expressions.

ghost use Rattle.std.specs.Prelude.{◌≡◌};
ghost use Rattle.cell_calc_grammar.specs.Function.{function_with_name, accepts_argument_count};

/// A function of expressions (r.mapcalc manual, "Functions").
#[derive(Clone, Copy, Debug, PartialEq, Eq)]
pub enum Function {
    If,
    IsNull,
    Null,
    Abs,
    Min,
    Max,
    Mode,
    Row,
    Column,
    RowCount,
    ColumnCount,
    Eval,
    /// `nmin`: the smallest of the arguments that are not null.
    KnownMin,
    /// `nmax`: the largest of the arguments that are not null.
    KnownMax,
    /// `nmode`: the most frequent of the arguments that are not null.
    KnownMode,
}

// All functions with their names.
const FUNCTION_NAMES: [(&[u8], Function); 15] = [
    (b"if", Function::If),
    (b"isnull", Function::IsNull),
    (b"null", Function::Null),
    (b"abs", Function::Abs),
    (b"min", Function::Min),
    (b"max", Function::Max),
    (b"mode", Function::Mode),
    (b"row", Function::Row),
    (b"col", Function::Column),
    (b"nrows", Function::RowCount),
    (b"ncols", Function::ColumnCount),
    (b"eval", Function::Eval),
    (b"nmin", Function::KnownMin),
    (b"nmax", Function::KnownMax),
    (b"nmode", Function::KnownMode),
];

/// Returns the function with this name, if there is one.
pub fn function_with_name(name: &[u8]) -> Option<Function>
    ensures { result ≡ function_with_name name.now }
{
    for (text, function) in &FUNCTION_NAMES {
        if name == *text {
            return Some(*function);
        }
    }
    None
}

/// Returns whether a function accepts `count` arguments.
pub fn accepts_argument_count(function: Function, count: usize) -> bool
    ensures { result ≡ accepts_argument_count function count }
{
    match function {
        Function::If => 1 <= count && count <= 3,
        Function::IsNull | Function::Abs => count == 1,
        Function::Min | Function::Max | Function::Mode => 2 <= count,
        Function::KnownMin | Function::KnownMax | Function::KnownMode => 2 <= count,
        Function::Eval => 1 <= count,
        Function::Null | Function::Row | Function::Column => count == 0,
        Function::RowCount | Function::ColumnCount => count == 0,
    }
}
