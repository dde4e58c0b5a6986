//! Laws of the command lines: functions with no code, whose contracts are proved of the definitions.
ghost use Rattle.std.specs.Prelude.{◌≡◌, [], ◌∷◌, Ok, codes, List, ℕ};
ghost use Rattle.pool_command.specs.Reading.{command_of};
ghost use Rattle.pool_command.specs.declared.command.Command.TheVariants.{Zpool, Zfs};
ghost use Rattle.pool_command.specs.declared.command.ZpoolCommand.TheVariants as zpool;
ghost use Rattle.pool_command.specs.declared.command.ZfsCommand.TheVariants as zfs;

/// What some lines ask for, word by word.
pub fn lines_are_read()
    ensures pool { command_of (codes "zpool" ∷ codes "create" ∷ codes "--seed" ∷ codes "7"
        ∷ codes "--bytes" ∷ codes "8388608" ∷ codes "tank" ∷ codes "raidz1"
        ∷ codes "a" ∷ codes "b" ∷ codes "c" ∷ []) ≡ Ok (Zpool (zpool.Create (record {
          seed = 7;
          bytes = 8388608;
          meta = 2;
          shift = 12;
          name = codes "tank";
          parities = 1;
          files = codes "a" ∷ codes "b" ∷ codes "c" ∷ [];
        }))) }
    ensures volume { command_of (codes "zfs" ∷ codes "create" ∷ codes "--size" ∷ codes "1024"
        ∷ codes "--block" ∷ codes "512" ∷ codes "v" ∷ codes "a" ∷ codes "b" ∷ codes "c" ∷ [])
        ≡ Ok (Zfs (zfs.Create 1024 512 (codes "v")
        (codes "a" ∷ codes "b" ∷ codes "c" ∷ []))) }
    ensures vdev { command_of (codes "zpool" ∷ codes "add" ∷ codes "--seed" ∷ codes "8"
        ∷ codes "--bytes" ∷ codes "16777216" ∷ codes "--type" ∷ codes "raidz2" ∷ codes "--new"
        ∷ codes "3" ∷ codes "a" ∷ codes "b" ∷ codes "c" ∷ codes "d" ∷ []) ≡ Ok (Zpool (zpool.Add (record {
          seed = 8;
          bytes = 16777216;
          parities = 2;
          files = codes "a" ∷ [];
          new_files = codes "b" ∷ codes "c" ∷ codes "d" ∷ [];
        }))) }
{}

/// Names and paths are read as they stand, here of those that begin with a `v` and an `a`.
pub fn names_are_read_as_they_stand()
    ensures { (name file : List ℕ) → command_of (codes "zfs" ∷ codes "destroy" ∷ (118 ∷ name)
        ∷ (97 ∷ file) ∷ []) ≡ Ok (Zfs (zfs.Destroy (118 ∷ name) ((97 ∷ file) ∷ []))) }
{}
