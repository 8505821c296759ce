ghost use Rattle.play.specs.Leads.{Hottest};

// The part that leads, and its temperature.
#[derive(Clone, Copy)]
pub struct Lead {
    pub part: usize,
    pub heat: u32,
}

// The open part of greatest temperature, the lowest number among equals. An ended part has no
// temperature. A loop over the parts with their number, which shows who keeps the lead among equals; a
// chain's maximum hides that.
pub fn hottest(heats: &[Option<u32>]) -> Option<Lead>
    ensures { Hottest heats.now result }
{
    let mut best: Option<Lead> = None;
    for (part, heat) in heats.iter().enumerate() {
        if let Some(heat) = *heat
            && best.is_none_or(|lead| lead.heat < heat)
        {
            best = Some(Lead { part, heat });
        }
    }
    best
}
