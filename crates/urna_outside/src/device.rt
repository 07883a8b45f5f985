ghost use Rattle.std.specs.Prelude.{◌≡◌};
ghost use Rattle.urna_outside.specs.Told.{port_of};

/// The two flashes of a machine. Internal comes first wherever both are meant.
#[derive(Clone, Copy, Debug, PartialEq, Eq)]
pub enum Dev {
    Internal,
    External,
}

/// What of a machine can fail by itself.
#[derive(Clone, Copy, Debug, PartialEq, Eq)]
pub enum Port {
    Internal,
    External,
    Display,
}

/// A device is a port too.
impl From<Dev> for Port {
    ghost from_gives = { λ dev port. port ≡ port_of dev };

    fn from(dev: Dev) -> Port {
        match dev {
            Dev::Internal => Port::Internal,
            Dev::External => Port::External,
        }
    }
}

/// A call to the outside failed, and the count of faults rose: of a machine that of its port, of a cabinet its only one.
#[derive(Clone, Copy, Debug, PartialEq, Eq)]
pub struct Failed;
