use model::value::Value;

/// A value that a row reads: from a register of the unit, or a constant.
#[derive(Clone, Copy, Default, Debug)]
pub enum Operand {
    #[default]
    First,
    Second,
    Constant(Value),
}

/// When a row is enabled at its location. The first operand is compared with the second. `None` stands here and not an
/// `Option` of a comparison: it is a guard like the others, which always holds.
#[derive(Clone, Copy, Default, Debug)]
pub enum Guard {
    #[default]
    None,
    Equal(Operand, Operand),
    Differs(Operand, Operand),
    Less(Operand, Operand),
}

#[derive(Clone, Copy, Debug)]
pub enum Register {
    First,
    Second,
}

/// What a unit does as it takes a row.
#[derive(Clone, Copy, Default, Debug)]
pub enum Action {
    #[default]
    Silent,
    /// Sends the operand's value.
    Broadcast(Operand),
    /// Fills the register with the value received.
    Receive(Register),
}

/// A row of a program. The new registers are read together, after a receive has filled its register.
#[derive(Clone, Copy, Default, Debug)]
pub struct Row {
    pub from: u8,
    pub guard: Guard,
    pub action: Action,
    pub to: u8,
    pub first: Operand,
    pub second: Operand,
}
