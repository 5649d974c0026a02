// The parts of a line that are more than a number.
ghost use Rattle.desk_lines.specs.Lines.{left};
ghost use Rattle.desk_lines.specs.Lines as Lines;
ghost use Rattle.desk_lines.specs.Parts.{Tells};

use crate::Request;
use crate::fields::Fields;
use settings::rate::Rate;
use units::Nanos;

impl<'a> Fields<'a> {
    // The moment, the key and the cost.
    #[tactic(auto, using(crate::proofs::ReadingLaws::no_number))]
    pub(crate) fn request(&mut self) -> Option<Request>
        ensures { Tells result self.new (Lines.taken_request (left self.old)) }
    {
        let at = self.number(u64::MAX)?;
        let key = self.number(u64::MAX)?;
        let cost = self.number_u32()?;
        Some(Request {
            at: Nanos(at),
            key,
            cost,
        })
    }

    // The amount, the period, the burst and the initial tokens.
    #[tactic(auto, using(crate::proofs::ReadingLaws::no_number))]
    pub(crate) fn rate(&mut self) -> Option<Rate>
        ensures { Tells result self.new (Lines.taken_rate (left self.old)) }
    {
        let amount = self.number_u32()?;
        let period = self.number(u64::MAX)?;
        let burst = self.number_u32()?;
        let initial = self.number_u32()?;
        Some(Rate {
            amount,
            period: Nanos(period),
            burst: Some(burst),
            initial: Some(initial),
        })
    }
}
