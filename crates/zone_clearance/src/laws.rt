ghost use Rattle.std.specs.Prelude.{◌≡◌, ◌≤◌, ◌*◌, ◌↔◌, ℕ, pos, nat_abs, ◌*ℤ◌, ◌≤ℤ◌, IsTrue, IsFalse};
ghost use Rattle.rapid_num.specs.declared.joints.Joints.{Joints};
ghost use Rattle.rapid_num.specs.declared.shape.Shape.{Shape};
ghost use Rattle.joint_clip.specs.Touches.{Touches};
ghost use Rattle.zone_clearance.specs.declared.gap.Gap.{Gap};
ghost use Rattle.zone_clearance.specs.Certificates.{SidesProve};
ghost use Rattle.zone_clearance.specs.Distances.{distance_along};
ghost use Rattle.zone_clearance.specs.Gaps.{IsGap};
ghost use Rattle.zone_clearance.specs.Premises.{NamesAnAxis};
ghost use Rattle.zone_clearance.specs.Reaches.{ReachesBound};

/// A law: the gap of a segment that touches a zone is 0. That of an Inside zone is above 0 exactly if the segment does
/// not touch it; that of an Outside zone, which is open, exactly if no point of the segment is in it or on a bound.
pub fn gaps_tell_touching()
    ensures touched { (p q : Joints) (shape : Shape) (gap : Gap) → IsGap p q shape gap → Touches p q shape → gap.top ≡ pos 0 }
    ensures inside { (p q : Joints) (shape : Shape) (gap : Gap) → IsTrue shape.inside → IsGap p q shape gap → (pos 1 ≤ℤ gap.top) ↔ (¬ Touches p q shape) }
    ensures outside { (p q : Joints) (shape : Shape) (gap : Gap) → IsFalse shape.inside → NamesAnAxis shape.bounds → IsGap p q shape gap → (pos 1 ≤ℤ gap.top) ↔ (¬ ReachesBound p q shape.bounds) }
{}

/// A law: if the sides of a gap prove it, no point of the segment is nearer.
pub fn certificates_hold()
    ensures { (p q : Joints) (shape : Shape) (gap : Gap) → SidesProve p q shape gap → (k m : ℕ) → 1 ≤ m → k ≤ m → pos (nat_abs gap.top * m) ≤ℤ (distance_along p q shape k m *ℤ pos (nat_abs gap.bottom)) }
{}
