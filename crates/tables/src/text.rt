// What a record prints.
use ceilings::Limits;
use query::Answer;
use ramp::Stop;
use sheet_lookup::{Signal, Stretch};
use sheet_mark::Move;
use sheet_walk::Back;
use std::fmt::{self, Display};
use step::Distances;
use train::{BrakeType, Coefficients, Gradient, Inertia, Signed, Train, Written};

// A record's fields in the order of its table's head, with a space between two.
#[derive(Clone, Copy)]
pub struct Fields<T>(pub T);

impl Display for Fields<Gradient> {
    fn fmt<W: fmt::Write>(&self, f: &mut fmt::Formatter<W>) -> fmt::Result {
        Fields(Signed::from(self.0)).fmt(f)
    }
}

impl Display for Fields<Signed> {
    fn fmt<W: fmt::Write>(&self, f: &mut fmt::Formatter<W>) -> fmt::Result {
        let Signed { plus, minus } = self.0;
        if minus > 0 {
            write!(f, "-{minus}")
        } else {
            write!(f, "{plus}")
        }
    }
}

// Whether it is a freight train, whether its electropneumatic brake works, braked weight, length and top speed.
impl Display for Fields<Train> {
    fn fmt<W: fmt::Write>(&self, f: &mut fmt::Formatter<W>) -> fmt::Result {
        let t = self.0;
        let freight = matches!(t.brake, BrakeType::Freight) as u32;
        let working = t.electropneumatic as u32;
        write!(
            f,
            "{freight} {working} {} {} {}",
            t.weight, t.length.0, t.top.0
        )
    }
}

impl Display for Fields<Inertia> {
    fn fmt<W: fmt::Write>(&self, f: &mut fmt::Formatter<W>) -> fmt::Result {
        let k = self.0;
        write!(f, "{} {} {} {} {}", k.ki1, k.ki2, k.ki3, k.i1, Fields(k.i2))
    }
}

impl Display for Fields<Coefficients> {
    fn fmt<W: fmt::Write>(&self, f: &mut fmt::Formatter<W>) -> fmt::Result {
        let k = self.0;
        write!(f, "{} {} {} {} ", k.dt, k.h, k.kr, k.cr)?;
        write!(f, "{} {} {}", Fields(k.nc), k.vc.0, Fields(k.inertia))
    }
}

impl Display for Fields<Limits> {
    fn fmt<W: fmt::Write>(&self, f: &mut fmt::Formatter<W>) -> fmt::Result {
        let l = self.0;
        write!(f, "{} {} {} {}", l.refusal, l.w.0, l.sbi.0, l.ebi.0)
    }
}

impl Display for Fields<Distances> {
    fn fmt<W: fmt::Write>(&self, f: &mut fmt::Formatter<W>) -> fmt::Result {
        let d = self.0;
        write!(
            f,
            "{} {} {} {} {}",
            d.refusal, d.ebi.0, d.sbi.0, d.w.0, d.p.0
        )
    }
}

impl Display for Fields<Written> {
    fn fmt<W: fmt::Write>(&self, f: &mut fmt::Formatter<W>) -> fmt::Result {
        let w = self.0;
        write!(f, "{} {}", w.refusal, w.length)
    }
}

impl Display for Fields<Stop> {
    fn fmt<W: fmt::Write>(&self, f: &mut fmt::Formatter<W>) -> fmt::Result {
        let s = self.0;
        write!(f, "{} {} {}", s.refusal, s.distance.0, s.moment)
    }
}

impl Display for Fields<Stretch> {
    fn fmt<W: fmt::Write>(&self, f: &mut fmt::Formatter<W>) -> fmt::Result {
        let s = self.0;
        write!(f, "{} {} {}", s.refusal, s.start.0, s.gradient)
    }
}

impl Display for Fields<Signal> {
    fn fmt<W: fmt::Write>(&self, f: &mut fmt::Formatter<W>) -> fmt::Result {
        let s = self.0;
        write!(f, "{} {} {}", s.refusal, s.place.0, s.overlap.0)
    }
}

impl Display for Fields<Move> {
    fn fmt<W: fmt::Write>(&self, f: &mut fmt::Formatter<W>) -> fmt::Result {
        let m = self.0;
        write!(
            f,
            "{} {} {} {} {}",
            m.refusal, m.end, m.start.0, m.gradient, m.mark.next
        )
    }
}

impl Display for Fields<Back> {
    fn fmt<W: fmt::Write>(&self, f: &mut fmt::Formatter<W>) -> fmt::Result {
        let b = self.0;
        write!(f, "{} {} {} ", b.refusal, b.end, b.stretch)?;
        write!(f, "{} {} {}", b.gradient, b.least, b.least_stretch)
    }
}

impl Display for Fields<Answer> {
    fn fmt<W: fmt::Write>(&self, f: &mut fmt::Formatter<W>) -> fmt::Result {
        let a = self.0;
        write!(
            f,
            "{} {} {} {} ",
            a.refusal, a.release.0, a.permitted.0, a.mark
        )?;
        write!(f, "{} {} {} ", a.w.0, a.sbi.0, a.ebi.0)?;
        write!(f, "{} {}", a.overlap_stretch, a.ahead_stretch)
    }
}
