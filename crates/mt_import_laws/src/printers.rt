ghost use Rattle.std.specs.Prelude.{◌≡◌, ◌∷◌, [], ℕ, List, Bool, true, None, Some, codes};
ghost use Rattle.mt_regs.specs.declared.registers.Register.TheVariants.{PhysBase, PhysMask};
ghost use Rattle.mt_regs.specs.RegisterFile.{RegisterFile, pair_at};
ghost use Rattle.mt_import.specs.declared.format.Choice.TheVariants.{Only};
ghost use Rattle.mt_import.specs.declared.format.Format.TheVariants.{Chipsec, Coreboot, Edk2, Inteltool, Linux, Rdmsr, Windbg, X86info, Xen};
ghost use Rattle.mt_dump.specs.Canon.{ended};
ghost use Rattle.mt_import.specs.Import.{log_outcome};
ghost use Rattle.mt_import.specs.Supplied.{Supplied, command_of};
ghost use Rattle.mt_import_laws.specs.FirstLine.{IsOfNoHost, takes};
ghost use Rattle.mt_import_laws.specs.Printed.{ReadsAs, TableReadsBack, TableReadsInOrder, TellsNoMore, TextReadsAs, TextReadsBack, dump_of_all};
ghost use Rattle.mt_import_laws.specs.PrintedByCoreboot.{SuitsCoreboot, Tails, coreboot_lines, line_of as coreboot_line};
ghost use Rattle.mt_import_laws.specs.PrintedByEdk2.{SuitsEdk2, edk2_lines, pair_line};
ghost use Rattle.mt_import_laws.specs.PrintedByInteltool.{CoresTurn, Names, SuitsInteltool, inteltool_lines, line_of as inteltool_line};
ghost use Rattle.mt_import_laws.specs.PrintedByRdmsr.{SuitsRdmsr, SuitsRdmsrOfAll, all_line, call_line, hex_text, rdmsr_all_lines, rdmsr_lines, rdmsr_text};
ghost use Rattle.mt_import_laws.specs.PrintedByRows.{chipsec_line, lines_by, windbg_line};
ghost use Rattle.mt_import_laws.specs.PrintedByX86info.{Print, SuitsX86info, SuitsX86infoOfAll, cpu_line, cpu_lines, files_in, line_of as x86info_line, size_line, x86info_lines};
ghost use Rattle.mt_import_laws.specs.PrintedByLinux.{Log, SuitsLinux, linux_lines};
ghost use Rattle.mt_import_laws.specs.PrintedByXen.{SuitsXen, xen_lines};
ghost use Rattle.mt_import_laws.specs.WorkedPrinted.{early_log, linux_log, model_names, ordinary_pc, some_tails, two_cpus, two_prints, width_36, width_and_pat, words_for_edk2, words_for_kernels, words_for_x86info, x86info_print, xen_log};

/// What a shell prints under `set -x` that calls rdmsr for each register of a file reads back as the file, if words supply its width.
/// So it does by `auto`.
pub fn what_rdmsr_prints_reads_back()
    ensures { (file : RegisterFile) (supplied : Supplied) → SuitsRdmsr file supplied → TextReadsBack Rdmsr (rdmsr_text file) supplied file }
{}

/// What a shell prints that calls rdmsr for each register of all processors, by `-a`, reads back as the dump with a section for each,
/// if words supply the width. So it does by `auto`.
pub fn what_rdmsr_prints_of_all_reads_back()
    ensures { (files : List RegisterFile) (supplied : Supplied) → SuitsRdmsrOfAll files supplied
        → TextReadsAs Rdmsr (ended (rdmsr_all_lines files)) supplied (dump_of_all files) }
{}

/// What inteltool prints of a register file reads back as the file, if words supply its width. So does any log that has each of
/// these lines, and besides them only lines that say no more of a dump than the file.
pub fn what_inteltool_prints_reads_back()
    ensures { (names : Names) (file : RegisterFile) (supplied : Supplied) → SuitsInteltool names file supplied
        → TableReadsBack Inteltool (inteltool_lines names file) supplied file }
{}

/// What inteltool prints in front of a core's registers turns to this core.
pub fn what_inteltool_prints_of_a_core_turns_to_it()
    ensures { CoresTurn }
{}

/// What x86info prints of a register file reads back as the file, if words supply what it doesn't print, and what stands behind
/// the names of more than two registers that it couldn't read. So does any log that has each of these lines, and besides them
/// only lines that say no more of a dump than the file.
pub fn what_x86info_prints_reads_back()
    ensures { (print : Print) (file : RegisterFile) (supplied : Supplied) → SuitsX86info print file supplied
        → TableReadsBack X86info (x86info_lines print file) supplied file }
{}

/// What x86info prints of each processor with `--all-cpus` reads back as the dump with a section for each, if words supply what it
/// doesn't print. A word is for all processors.
pub fn what_x86info_prints_of_all_reads_back()
    ensures { (cpus : List (Print × RegisterFile)) (supplied : Supplied) → SuitsX86infoOfAll cpus supplied
        → ReadsAs (log_outcome (Only X86info) supplied (ended (cpu_lines 0 cpus))) (dump_of_all (files_in cpus)) }
{}

/// What WinDbg prints of each register of a file reads back as the file, if words supply its width. So does any log that has each of
/// these lines, and besides them only lines that say no more of a dump than the file.
pub fn what_windbg_prints_reads_back()
    ensures { (file : RegisterFile) (supplied : Supplied) → SuitsRdmsr file supplied → TableReadsBack Windbg (lines_by windbg_line file) supplied file }
{}

/// What chipsec prints of each register of a file reads back as what WinDbg prints does.
pub fn what_chipsec_prints_reads_back()
    ensures { (file : RegisterFile) (supplied : Supplied) → SuitsRdmsr file supplied → TableReadsBack Chipsec (lines_by chipsec_line file) supplied file }
{}

/// What coreboot displays of a register file reads back as the file, if words supply its width and its PAT. So does any log that has
/// each of these lines, and besides them only lines that say no more of a dump than the file.
pub fn what_coreboot_displays_reads_back()
    ensures { (leveled : Bool) (tails : Tails) (file : RegisterFile) (supplied : Supplied) → SuitsCoreboot tails file supplied
        → TableReadsBack Coreboot (coreboot_lines leveled tails file) supplied file }
{}

/// What EDK2 prints of a register file reads back as the file, if words supply the width, 0FEH, the PAT and the pairs without a line.
/// So does any log that has each of these lines, and besides them only lines that say no more of a dump than the file.
pub fn what_edk2_prints_reads_back()
    ensures { (file : RegisterFile) (supplied : Supplied) → SuitsEdk2 file supplied → TableReadsBack Edk2 (edk2_lines file) supplied file }
{}

/// What Xen prints of a register file reads back as the file, if words supply the width, 0FEH, the PAT and what the table doesn't show:
/// the registers of pairs that are off and not 0, and IA32_MTRR_DEF_TYPE without FIX. Types without a name and reserved bits aren't shown.
/// So it does by `auto`, and so does any log that has these lines in their order, and between them only lines that say no more of a
/// dump than the file.
pub fn what_xen_prints_reads_back()
    ensures { (file : RegisterFile) (supplied : Supplied) → SuitsXen file supplied → TableReadsInOrder Xen (xen_lines file) supplied file }
{}

/// What Linux prints of a register file reads back as what Xen prints does, if words supply the same. They also supply
/// IA32_MTRR_DEF_TYPE if neither E is set nor fixed ranges are called enabled.
pub fn what_linux_prints_reads_back()
    ensures { (log : Log) (file : RegisterFile) (supplied : Supplied) → SuitsLinux log file supplied → TableReadsInOrder Linux (linux_lines log file) supplied file }
{}

/// `auto` takes the format of what inteltool, EDK2, coreboot, x86info, WinDbg and chipsec print of a register file. Of coreboot and x86info
/// the line of 0FEH may not have `kernel:` where journalctl and syslog have it.
pub fn auto_takes_what_is_printed()
    ensures inteltool { (names : Names) (file : RegisterFile) (supplied : Supplied) → SuitsInteltool names file supplied → takes (inteltool_lines names file) ≡ Some Inteltool }
    ensures edk2 { (file : RegisterFile) (supplied : Supplied) → SuitsEdk2 file supplied → takes (edk2_lines file) ≡ Some Edk2 }
    ensures windbg { (file : RegisterFile) (supplied : Supplied) → SuitsRdmsr file supplied → takes (lines_by windbg_line file) ≡ Some Windbg }
    ensures chipsec { (file : RegisterFile) (supplied : Supplied) → SuitsRdmsr file supplied → takes (lines_by chipsec_line file) ≡ Some Chipsec }
    ensures coreboot { (leveled : Bool) (tails : Tails) (file : RegisterFile) (supplied : Supplied) → SuitsCoreboot tails file supplied
        → IsOfNoHost (coreboot_line leveled tails file None) → takes (coreboot_lines leveled tails file) ≡ Some Coreboot }
    ensures x86info { (print : Print) (file : RegisterFile) (supplied : Supplied) → SuitsX86info print file supplied
        → IsOfNoHost (x86info_line print file None) → takes (x86info_lines print file) ≡ Some X86info }
    ensures several { (print : Print) (file : RegisterFile) (cpus : List (Print × RegisterFile)) (supplied : Supplied)
        → SuitsX86infoOfAll ((print, file) ∷ cpus) supplied → IsOfNoHost (x86info_line print file None)
        → takes (cpu_lines 0 ((print, file) ∷ cpus)) ≡ Some X86info }
{}

/// Lines of Linux and then more of Xen, of which `auto` takes Xen's, and the other way round. What coreboot and x86info print of an ordinary
/// PC is an instance of `auto_takes_what_is_printed`.
pub fn worked_formats()
    ensures xen { takes (codes "MTRR default type: uncachable" ∷ xen_log) ≡ Some Xen }
    ensures linux { takes (codes "(XEN) MTRR default type: uncachable" ∷ linux_log) ≡ Some Linux }
    ensures none { takes (codes "0 of 5" ∷ []) ≡ None }
    ensures of_coreboot { IsOfNoHost (coreboot_line true some_tails ordinary_pc None) }
    ensures of_x86info { IsOfNoHost (x86info_line x86info_print ordinary_pc None) }
    ensures of_host { IsOfNoHost (codes "Nov 28 05:45:01 host kernel: MTRR default type: uncachable") → ⊥ }
{}

/// Lines that say no more of an ordinary PC's dump: another register, a register of its own, a line of `/proc/mtrr`, that lines of
/// processor 0 follow, the width, and a kernel's warning.
pub fn worked_others()
    ensures register { TellsNoMore Inteltool ordinary_pc (codes " MSR 0x0000001B = 0x00000000:0xFEE00900 (IA32_APIC_BASE)") }
    ensures own { TellsNoMore Inteltool ordinary_pc (codes " MSR 0x00000200 = 0x00000000:0x00000006 (IA32_MTRR_PHYSBASE0)") }
    ensures pair { TellsNoMore Linux ordinary_pc (codes "reg00: base=0x000000000 (    0MB), size= 4096MB, count=1: write-back") }
    ensures turn { TellsNoMore Inteltool ordinary_pc (codes "======================= UNIQUE MSRs  (core 0) =======================") }
    ensures width { TellsNoMore Linux ordinary_pc (codes "Address sizes: 36 bits physical, 48 bits virtual") }
    ensures warning { TellsNoMore Xen ordinary_pc (codes "(XEN) mtrr: your CPUs had inconsistent variable MTRR settings") }
    ensures nothing { TellsNoMore Linux ordinary_pc (codes "[    0.000000] BIOS-provided physical RAM map:") }
    ensures other_width { TellsNoMore Linux ordinary_pc (codes "Address sizes: 39 bits physical, 48 bits virtual") → ⊥ }
{}

/// The registers of an ordinary PC are an instance for each program. The words of four are command lines. A line of each is as the
/// program printed it, and the whole table of Xen and of Linux.
pub fn worked_prints()
    ensures rdmsr { SuitsRdmsr ordinary_pc width_36 }
    ensures inteltool { SuitsInteltool model_names ordinary_pc width_36 }
    ensures coreboot { SuitsCoreboot some_tails ordinary_pc width_and_pat }
    ensures edk2 { SuitsEdk2 ordinary_pc words_for_edk2 }
    ensures x86info { SuitsX86info x86info_print ordinary_pc words_for_x86info }
    ensures xen { SuitsXen ordinary_pc words_for_kernels }
    ensures linux { SuitsLinux early_log ordinary_pc words_for_kernels }
    ensures words { command_of (codes "inteltool" ∷ codes "maxphyaddr=36" ∷ []) ≡ Some (Only Inteltool, width_36) }
    ensures more_words { command_of (codes "coreboot" ∷ codes "maxphyaddr=36" ∷ codes "277=7040600070406" ∷ []) ≡ Some (Only Coreboot, width_and_pat) }
    ensures words_too { command_of (codes "x86info" ∷ codes "268=505050505050505" ∷ codes "277=7040600070406" ∷ []) ≡ Some (Only X86info, words_for_x86info) }
    ensures words_for_xen { command_of (codes "xen" ∷ codes "maxphyaddr=36" ∷ codes "0fe=d08" ∷ codes "277=7040600070406" ∷ []) ≡ Some (Only Xen, words_for_kernels) }
    ensures by_rdmsr { (call_line 0x201 ≡ codes "+ rdmsr -p 0 0x201") × (hex_text 0xf00000800 ≡ codes "f00000800") }
    ensures by_inteltool { inteltool_line model_names ordinary_pc (Some (PhysBase 1)) ≡ codes " MSR 0x00000202 = 0x00000001:0x00000006 (IA32_MTRR_PHYSBASE1)" }
    ensures by_windbg { windbg_line 0x202 0x100000006 ≡ codes "msr[202] = 00000001`00000006" }
    ensures by_chipsec { chipsec_line 0x202 0x100000006 ≡ codes "[CHIPSEC] CPU0: RDMSR( 0x202 ) = 0000000100000006 (EAX=00000006, EDX=00000001)" }
    ensures by_x86info { x86info_line x86info_print ordinary_pc (Some (PhysMask 3))
        ≡ codes "MTRRphysMask3 (0x207): 0x0000000fe0000800 (physmask field:0xfe0000 valid flag: 1)" }
    ensures sizes_by_x86info { size_line 36 48 ≡ codes "Address sizes : 36 bits physical, 48 bits virtual" }
    ensures by_xen { xen_lines ordinary_pc ≡ xen_log }
    ensures by_linux { linux_lines early_log ordinary_pc ≡ linux_log }
    ensures by_coreboot { coreboot_line true some_tails ordinary_pc (Some (PhysMask 2))
        ≡ codes "[DEBUG]  0x0000000fe0000800: PHYMASK2: Length  = 0x0000000020000000, Valid" }
    ensures by_edk2 { pair_line 3 (pair_at ordinary_pc.pairs 3) ≡ codes "Variable MTRR[03]: Base=00000000E0000000 Mask=0000000FE0000800" }
{}

/// The registers of two processors, one with another default type, are an instance for the programs that print several.
pub fn worked_cpus()
    ensures rdmsr { SuitsRdmsrOfAll two_cpus width_36 }
    ensures x86info { SuitsX86infoOfAll two_prints words_for_x86info }
    ensures call { all_line 0x2ff ≡ codes "+ rdmsr -a 0x2ff" }
    ensures cpu { cpu_line 1 ≡ codes "CPU #2:" }
{}
