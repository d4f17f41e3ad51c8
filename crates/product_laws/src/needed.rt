//! Products need Q2.
ghost use Rattle.party_set.specs.Parties.{Structure};
ghost use Rattle.product_laws.specs.NeededQ2.{NobodyHoldsBoth, Q2IsDuty, PairsNeedQ2, DutiesMultiply, ProductsNeedQ2};

/// Where two groups are all parties, nobody holds both of their summands. Each pair of summands has a party that can
/// multiply them exactly where Q2 holds (Hirt and Maurer 1997).
pub fn q2_gives_each_pair_a_party()
    ensures lonely { (s : Structure) → NobodyHoldsBoth s }
    ensures duty { (s : Structure) → Q2IsDuty s }
{}

/// So without Q2 no product comes out, whoever multiplies which pairs that it holds, and whatever number each party
/// makes of the summands that it holds. With Q2 it does, by the duties.
pub fn products_need_q2()
    ensures pairs { PairsNeedQ2 }
    ensures duties { DutiesMultiply }
    ensures made { ProductsNeedQ2 }
{}
