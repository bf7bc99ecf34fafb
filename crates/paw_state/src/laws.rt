// The laws of a state, and of its bytes.

ghost use Rattle.paw_state.specs.inner.Laws.{FieldsStand, OneFault, FitOrUnfit, BytesTellTheState, WrittenIsFit};
ghost use Rattle.paw_state.specs.inner.State.{StateOfParts};

/// Fields stand at their offsets in the bytes that they are written to, so bytes never have two first faults.
pub fn fields_stand()
    ensures stand { FieldsStand }
    ensures one { OneFault }
{}

/// Bytes have a fault exactly where they are no state of the game.
pub fn fit_or_unfit()
    ensures exactly { FitOrUnfit }
{}

/// Two states of a game with the same bytes are the same, so what is read back is what was written.
pub fn bytes_give_the_state()
    ensures same { BytesTellTheState }
{}

/// The bytes of a state of a game are fit for it, whatever follows them.
pub fn written_is_fit()
    ensures fit { WrittenIsFit }
{}

/// What is kept of a run is what is written of the parts that show it.
pub fn state_of_parts()
    ensures same { StateOfParts }
{}
