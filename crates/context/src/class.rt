// The class of a mobile: which services it uses.
ghost use Rattle.std.specs.Prelude.{◌≡◌};
ghost use Rattle.context.specs.Codes.{class_in, voice_class};

use elements::code::Class;

// A uses packet and voice service at once, B one at a time, C packet service only.
#[derive(Clone, Copy, Debug, PartialEq, Eq)]
pub enum ServiceClass {
    A = 1,
    B = 2,
    C = 3,
}

impl ServiceClass {
    // The class with this code.
    pub fn from_code(code: u8) -> Option<ServiceClass>
        ensures { result ≡ class_in code }
    {
        match code {
            1 => Some(ServiceClass::A),
            2 => Some(ServiceClass::B),
            3 => Some(ServiceClass::C),
            _ => None,
        }
    }

    // As a location update names it: only a mobile with voice service has one.
    pub fn voice(self) -> Option<Class>
        ensures { result ≡ voice_class self }
    {
        match self {
            ServiceClass::A => Some(Class::A),
            ServiceClass::B => Some(Class::B),
            ServiceClass::C => None,
        }
    }
}
