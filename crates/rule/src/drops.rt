// Drops: how far the water stands above what lies beside it.
ghost use Rattle.rule.specs.Drops.{DropTo, DropOff};
ghost use Rattle.rule.specs.Inner.InRange.{EdgeInRange};

use crate::rules::Rules;
use reckon::numbers::lesser;

// The drop from a square's level towards that of an open or exit neighbour: 0 where it is no drop.
pub fn drop_to(own: u64, neighbour: u64) -> u64
    ensures { DropTo own neighbour result }
{
    own.saturating_sub(neighbour)
}

// The drop off the grid from an exit: the surface beyond it goes on at the edge slope.
pub fn drop_off(rules: Rules, depth: u64) -> u64
    requires { EdgeInRange rules }
    ensures { DropOff rules depth result }
{
    lesser(depth, rules.edge * 100 * rules.square_side)
}
