// One thing for each of the five figures of a divergence's statistics.
ghost use Rattle.std.specs.Prelude.{◌≡◌};

#[derive(Clone, Copy, Debug, PartialEq)]
pub struct Five<T> {
    pub max: T,
    pub min: T,
    pub nz_count: T,
    pub moment1_nz: T,
    pub moment2_nz: T,
}

impl<T: Copy> Five<T> {
    // The same for each figure.
    pub fn alike(x: T) -> Self
        ensures { result ≡ record { max = x; min = x; nz_count = x; moment1_nz = x; moment2_nz = x } }
    {
        Five {
            max: x,
            min: x,
            nz_count: x,
            moment1_nz: x,
            moment2_nz: x,
        }
    }

    // What f makes of each.
    pub fn map<U, F: Fn(T) -> U>(self, f: F) -> Five<U>
        requires { F.IsAlwaysCallable f }
        ensures max { F.post f self.max result.max }
        ensures min { F.post f self.min result.min }
        ensures nz_count { F.post f self.nz_count result.nz_count }
        ensures moment1_nz { F.post f self.moment1_nz result.moment1_nz }
        ensures moment2_nz { F.post f self.moment2_nz result.moment2_nz }
    {
        Five {
            max: f(self.max),
            min: f(self.min),
            nz_count: f(self.nz_count),
            moment1_nz: f(self.moment1_nz),
            moment2_nz: f(self.moment2_nz),
        }
    }

    // What f makes of each and the other's for the same figure.
    pub fn zip<U: Copy, V, F: Fn(T, U) -> V>(self, other: Five<U>, f: F) -> Five<V>
        requires { F.IsAlwaysCallable f }
        ensures max { F.post f self.max other.max result.max }
        ensures min { F.post f self.min other.min result.min }
        ensures nz_count { F.post f self.nz_count other.nz_count result.nz_count }
        ensures moment1_nz { F.post f self.moment1_nz other.moment1_nz result.moment1_nz }
        ensures moment2_nz { F.post f self.moment2_nz other.moment2_nz result.moment2_nz }
    {
        Five {
            max: f(self.max, other.max),
            min: f(self.min, other.min),
            nz_count: f(self.nz_count, other.nz_count),
            moment1_nz: f(self.moment1_nz, other.moment1_nz),
            moment2_nz: f(self.moment2_nz, other.moment2_nz),
        }
    }
}
