ghost use Rattle.std.specs.List.{concat};
ghost use Rattle.std.specs.Prelude.{◌≡◌, ◌<◌, ◌≤◌, ◌⊎◌, ℕ, List, length, take};
ghost use Rattle.pq_model.specs.Install.{Install as InstallValue, IsLawfulInstall, IsOldInstall, IsSpelled, IsSpelledOld, install_bytes};
ghost use Rattle.pq_install.specs.Cut.{install_units, unit_start};
ghost use Rattle.pq_install.specs.Damage.{IsDamagedAt};
ghost use Rattle.pq_install.specs.Reading.{IsInstallAtFront};

/// Damaged bytes begin with no install, in neither spelling. It does nothing when it runs.
pub fn damaged_bytes_begin_with_no_install()
    ensures { (bytes : List ℕ) (at n : ℕ) (i : InstallValue) → IsDamagedAt bytes at
        → IsSpelled i (take n bytes) ⊎ IsSpelledOld i (take n bytes) → ⊥ }
{}

/// Bytes begin with one install at most. It does nothing when it runs.
pub fn bytes_begin_with_one_install()
    ensures { (bytes rest more : List ℕ) (i j : InstallValue) → IsInstallAtFront bytes i rest → IsInstallAtFront bytes j more → (i ≡ j) × (rest ≡ more) }
{}

/// No spelling of an install begins another's: two that are in front of the same bytes have one length. It does
/// nothing when it runs.
pub fn no_spelling_begins_another()
    ensures { (bytes : List ℕ) (m n : ℕ) (i j : InstallValue) → m ≤ length bytes → n ≤ length bytes
        → IsSpelled i (take m bytes) ⊎ IsSpelledOld i (take m bytes) → IsSpelled j (take n bytes) ⊎ IsSpelledOld j (take n bytes) → m ≡ n }
{}

/// An install that is cut short is damaged, in each of the two spellings: at the first byte of the unit that has the
/// first byte that is missing. The units in order are the spelling. It does nothing when it runs.
pub fn cut_installs_are_damaged()
    ensures units { (i : InstallValue) → (concat (install_units 0x32 i) ≡ install_bytes 0x32 i) × (concat (install_units 0x31 i) ≡ install_bytes 0x31 i) }
    ensures new { (i : InstallValue) (n : ℕ) → IsLawfulInstall i → n < length (install_bytes 0x32 i)
        → IsDamagedAt (take n (install_bytes 0x32 i)) (unit_start (install_units 0x32 i) n) }
    ensures old { (i : InstallValue) (n : ℕ) → IsLawfulInstall i → IsOldInstall i → n < length (install_bytes 0x31 i)
        → IsDamagedAt (take n (install_bytes 0x31 i)) (unit_start (install_units 0x31 i) n) }
{}

/// Bytes are damaged in one place at most. So an install that is cut short is damaged only at the first byte of the
/// unit that has the first byte that is missing. It does nothing when it runs.
pub fn bytes_are_damaged_in_one_place()
    ensures one { (bytes : List ℕ) (at other : ℕ) → IsDamagedAt bytes at → IsDamagedAt bytes other → at ≡ other }
    ensures cut_new { (i : InstallValue) (n at : ℕ) → IsLawfulInstall i → n < length (install_bytes 0x32 i)
        → IsDamagedAt (take n (install_bytes 0x32 i)) at → at ≡ unit_start (install_units 0x32 i) n }
    ensures cut_old { (i : InstallValue) (n at : ℕ) → IsLawfulInstall i → IsOldInstall i → n < length (install_bytes 0x31 i)
        → IsDamagedAt (take n (install_bytes 0x31 i)) at → at ≡ unit_start (install_units 0x31 i) n }
{}
