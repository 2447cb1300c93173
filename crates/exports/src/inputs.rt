// Shape, rules and run of the numbers that a caller lends.
ghost use Rattle.std.specs.Prelude.{◌≡◌, length};
ghost use Rattle.exports.specs.Numbers.{rules_from, rules_size, run_size, run_value_from, shape_from};

use grid::squares::Shape;
use ledger::runs::Run;
use rule::rules::Rules;

pub(crate) fn shape_from(rows: usize, columns: usize) -> Shape
    ensures { result ≡ shape_from rows columns }
{
    Shape {
        rows: rows,
        columns: columns,
    }
}

pub fn rules_from(numbers: &[u64]) -> Rules
    requires { length numbers.now ≡ rules_size }
    ensures { result ≡ rules_from numbers.now }
{
    Rules {
        square_side: numbers[0],
        tolerance: numbers[1],
        shortest: numbers[2],
        longest: numbers[3],
        update: numbers[4],
        edge: numbers[5],
        edition: numbers[6],
    }
}

pub fn run_from(numbers: &[u64]) -> Run
    requires { length numbers.now ≡ run_size }
    ensures { result ≡ run_value_from numbers.now }
{
    Run {
        clock: numbers[0],
        length: numbers[1],
        outflow: numbers[2],
        kept: numbers[3] as usize,
        newest: numbers[4] as usize,
        soaked: numbers[5],
    }
}
