// The rules of a call; the tests of refusals 5 and 2 that concern the rules or one square.
ghost use Rattle.rule.specs.Rules.{RulesJudged, GroundJudged};

use reckon::ranges::{
    MOST_BED, MOST_EDGE, MOST_EDITION, MOST_LENGTH, MOST_ROUGHNESS, MOST_TOLERANCE, MOST_UPDATE,
};

// square_side is D in m; tolerance is q in ten-thousandths; shortest, longest and update (U) are in ms; edge is e, the surface slope
// beyond an exit, in ten-thousandths; edition is 1 for document 01's rule, 2 for Manning's formula in each direction, 3 for document
// 01's rule without the limit by the least drop and the last leaving: a number, since `rules_fine` answers of one that is none of them.
#[derive(Clone, Copy)]
pub struct Rules {
    pub square_side: u64,
    pub tolerance: u64,
    pub shortest: u64,
    pub longest: u64,
    pub update: u64,
    pub edge: u64,
    pub edition: u64,
}

// Refusal 5: tolerance, step limits, update time, edge slope and edition are in range.
pub fn rules_fine(rules: Rules) -> bool
    ensures { RulesJudged rules result }
{
    if MOST_TOLERANCE < rules.tolerance {
        return false;
    }
    if rules.shortest < 1 {
        return false;
    }
    if rules.longest < rules.shortest {
        return false;
    }
    if MOST_LENGTH < rules.longest {
        return false;
    }
    if rules.update < 1 {
        return false;
    }
    if MOST_UPDATE < rules.update {
        return false;
    }
    if MOST_EDGE < rules.edge {
        return false;
    }
    if rules.edition < 1 {
        return false;
    }
    rules.edition <= MOST_EDITION
}

// Refusal 2: bed and roughness of a square not closed are in range.
pub fn ground_fine(bed: u32, roughness: u32) -> bool
    ensures { GroundJudged bed roughness result }
{
    if MOST_BED < bed {
        return false;
    }
    if roughness < 1 {
        return false;
    }
    roughness <= MOST_ROUGHNESS
}
