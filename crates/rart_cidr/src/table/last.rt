//! A route from which few others follow.
ghost use Rattle.std.specs.Prelude.{◌≡◌, [], ◌∷◌, Some, IfSome};
ghost use Rattle.rart_keys.specs.SortedMap.{lookup};
ghost use Rattle.rart_cidr.specs.Routes.{IsCode, coded_network};

use crate::table::BitTable;
use rart::KeyTrait;

impl<K: KeyTrait + Drop, T> BitTable<K, T> {
    /// Returns the first route of the last stride, as the bytes and the code of its network, and its target. The routes
    /// after it are in that stride, or in those at beginnings of these bytes.
    pub(crate) fn late_route(&self) -> Option<(K, u8, &T)>
        ensures code { IfSome result (λ p. IsCode (p.1 ∷ [])) }
        ensures stored { IfSome result (λ p.
            lookup (coded_network (K.bytes p.0) (p.1 ∷ [])) self.now ≡ Some p.2.now) }
    {
        self.strides.canonical();
        let Some((key, stride)) = self.strides.last_key_value() else {
            return None;
        };
        if let Some(target) = stride.get(1) {
            return Some((key, 1, target));
        }
        match stride.next(1, 255) {
            Some((code, target)) => Some((key, code, target)),
            None => None,
        }
    }
}
