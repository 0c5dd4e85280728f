//! The frame gates of a record, lowered in one place: `record_gates` of specs/Code/Raw.

ghost use Rattle.std.specs.Prelude.{List, [], ◌∷◌};
ghost use Rattle.pauli.specs.Gates.{Gate, gate_h, gate_x, gate_z, gate_s, gate_sdg, gate_cnot, gate_cz};
ghost use Rattle.convert.specs.Code.Raw.{record_gates};

use crate::gate::GateKind;

// What takes up frame gates.
pub(crate) trait FrameGates {
    // what gates ask of it
    ghost Ready: { Self → List Gate → Type 0 };

    // what they make of it
    ghost Done: { Self → List Gate → Self → Type 0 };

    // kept: a trait's method states its own contract; the gate of each is another.
    fn h(&mut self, q: usize)
        requires { Ready self.old (gate_h q ∷ []) }
        ensures { Done self.old (gate_h q ∷ []) self.new };

    // kept: as `h`.
    fn x(&mut self, q: usize)
        requires { Ready self.old (gate_x q ∷ []) }
        ensures { Done self.old (gate_x q ∷ []) self.new };

    // kept: as `h`.
    fn z(&mut self, q: usize)
        requires { Ready self.old (gate_z q ∷ []) }
        ensures { Done self.old (gate_z q ∷ []) self.new };

    // kept: as `h`.
    fn s(&mut self, q: usize)
        requires { Ready self.old (gate_s q ∷ []) }
        ensures { Done self.old (gate_s q ∷ []) self.new };

    // kept: as `h`.
    fn sdg(&mut self, q: usize)
        requires { Ready self.old (gate_sdg q ∷ []) }
        ensures { Done self.old (gate_sdg q ∷ []) self.new };

    // kept: as `h`.
    fn cnot(&mut self, c: usize, t: usize)
        requires { Ready self.old (gate_cnot c t ∷ []) }
        ensures { Done self.old (gate_cnot c t ∷ []) self.new };

    // kept: as `h`.
    fn cz(&mut self, c: usize, t: usize)
        requires { Ready self.old (gate_cz c t ∷ []) }
        ensures { Done self.old (gate_cz c t ∷ []) self.new };

    ghost head: { (s : Self) (g : Gate) (gs : List Gate) → Ready s (g ∷ gs) → Ready s (g ∷ []) };

    ghost tail: { (s t : Self) (g : Gate) (gs : List Gate) → Ready s (g ∷ gs) → Done s (g ∷ []) t → Ready t gs };

    ghost none: { (s : Self) → Ready s [] → Done s [] s };

    ghost more: { (s t u : Self) (g : Gate) (gs : List Gate) → Done s (g ∷ []) t → Done t gs u → Done s (g ∷ gs) u };

    // The frame gates of a record; a kind that has none changes nothing.
    #[inline(always)]
    final fn record(&mut self, kind: GateKind, a: usize, b: usize)
        requires { Ready self.old (record_gates kind a b) }
        ensures { Done self.old (record_gates kind a b) self.new }
    {
        match kind {
            GateKind::H => self.h(a),
            GateKind::X => self.x(a),
            GateKind::Z => self.z(a),
            GateKind::S => self.s(a),
            GateKind::Sdg => self.sdg(a),
            GateKind::Cnot => self.cnot(a, b),
            GateKind::Cz => self.cz(a, b),
            GateKind::Y => {
                self.z(a);
                self.x(a);
            }
            GateKind::Sx => {
                self.h(a);
                self.s(a);
                self.h(a);
            }
            GateKind::Swap => {
                self.cnot(a, b);
                self.cnot(b, a);
                self.cnot(a, b);
            }
            GateKind::Cy => {
                self.sdg(b);
                self.cnot(a, b);
                self.s(b);
            }
            _ => {}
        }
    }
}
