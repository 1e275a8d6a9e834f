use crate::standard::Standard;
use cd_admin::Administered;

impl Administered for Standard {
    ghost use Rattle.std.specs.Prelude.{refl};
    ghost use Rattle.cd_standard.specs.Administering.{admin_is_fine, ids_are_fine};

    ghost changes = { λ tree request. refl };

    ghost ids = { ids_are_fine };

    ghost admin = { admin_is_fine };
}
