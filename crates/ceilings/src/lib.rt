// The three speed ceilings of a permitted speed. Document 01, "Ceilings"; document 002, section 9.
// Takes: units and refusals of `train`. Gives: the operation `ceilings`, also to `query`; its answer and what is promised of it to
// `ceilings_stored`.
#![tactic(auto)]

ghost use Rattle.std.specs.Prelude.{◌≡◌, ◌≤◌};
ghost use Rattle.train.specs.Number.{number};
ghost use Rattle.ceilings.specs.Ceilings.{Narrow, grown_to, ceiling_of, refused};
ghost use Rattle.ceilings.specs.Answer.{CeilingAnswers};

use train::Kmh;
use train::refusal::Refusal;

// A speed in 120ths of a km/h.
#[repr(C)]
#[derive(Clone, Copy)]
pub struct Ceiling(pub u32);

// The ceilings for W, SBI and EBI, or a refusal and zeros, since C reads it.
#[repr(C)]
#[derive(Clone, Copy)]
pub struct Limits {
    pub refusal: u32,
    pub w: Ceiling,
    pub sbi: Ceiling,
    pub ebi: Ceiling,
}

// How far a ceiling lies above the permitted speed, in 120ths of a km/h: `least` up to 110 km/h, then `growth` more for each
// km/h up to `end`.
#[derive(Clone, Copy)]
pub struct Band {
    pub least: u32,
    pub growth: u32,
    pub end: Kmh,
}

const W: Band = Band {
    least: 480,
    growth: 4,
    end: Kmh(140),
};

const SBI: Band = Band {
    least: 600,
    growth: 6,
    end: Kmh(210),
};

const EBI: Band = Band {
    least: 900,
    growth: 9,
    end: Kmh(210),
};

impl Band {
    // For how many km/h above 110 the ceiling has grown.
    #[tactic(auto, unfolding(crate::specs::Ceilings::grown_to))]
    fn grown(self, v: Kmh) -> u32
        requires { Narrow self }
        ensures { (result ≡ grown_to self.end v) × (result ≤ 220) }
    {
        v.0.clamp(110, self.end.0) - 110
    }

    // The ceiling of a permitted speed.
    #[tactic(auto, unfolding(crate::specs::Ceilings::ceiling_of))]
    fn ceiling(self, v: Kmh) -> Ceiling
        requires { (v.0 ≤ 330) × Narrow self }
        ensures { result ≡ ceiling_of self v }
    {
        Ceiling(120 * v.0 + self.least + self.growth * self.grown(v))
    }
}

// A refusal, with zeros.
impl From<Refusal> for Limits {
    ghost from_gives = { λ r limits. limits ≡ record refused { refusal = number r } };

    fn from(refusal: Refusal) -> Limits {
        Limits {
            refusal: refusal.number(),
            w: Ceiling(0),
            sbi: Ceiling(0),
            ebi: Ceiling(0),
        }
    }
}

// The three ceilings of a permitted speed of 0 to 330 km/h.
#[tactic(auto, using(crate::proofs::Rules::answers))]
pub fn ceilings(permitted: Kmh) -> Limits
    ensures { CeilingAnswers permitted result }
{
    if permitted.0 > 330 {
        return Limits::from(Refusal::Speed);
    }
    Limits {
        refusal: 0,
        w: W.ceiling(permitted),
        sbi: SBI.ceiling(permitted),
        ebi: EBI.ceiling(permitted),
    }
}
